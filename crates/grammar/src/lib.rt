// No code: what a shortcut of a record is, told without reading it, and that reading accepts just that.
#![tactic(auto)]
