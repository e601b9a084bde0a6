// The canonical form of a shortcut: read, then written again.
#![tactic(auto)]

ghost use Rattle.std.specs.Prelude.{◌≡◌, length};
ghost use Rattle.format.specs.Numbers.{Numbered};
ghost use Rattle.rewriting.specs.Rewrite.{rewriting, rewrite_answer, rewrite_output};
ghost use Rattle.rewriting.specs.Kept.{Keeps};

use format::{Profile, Verdict};

pub fn rewrite(s: &[u8], out: &mut [u8], profile: Profile) -> Verdict
    ensures answer { result ≡ rewrite_answer profile s.now out.old }
    ensures output { out.new ≡ rewrite_output profile s.now out.old }
    ensures numbers { Numbered result (rewriting profile s.now (length out.old)) }
    ensures kept { Keeps profile s.now out.old result out.new }
{
    let g = reader::read(s, profile);
    g.verdict?;
    writer::write(g.held, s, out, profile)
}
