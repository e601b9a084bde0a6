// The rows of the listing, a line for each.
use crate::window::Window;
use reader::SectionEnds;

impl Window<'_> {
    ghost use Rattle.lines.specs.Text.{line_of};
    ghost use Rattle.lines.specs.Steps.Windows.{Showed, line_if, section_lines, BlocksShowed};

    fn line(&mut self, name: &[u8], start: usize, len: usize)
        ensures { Showed self.old (line_of name.now start len) self.new }
    {
        self.show(name);
        self.show(b" ");
        self.decimal(start as u64);
        self.show(b" ");
        self.decimal(len as u64);
        self.show(b"\n");
    }

    // A section that is there, from p to e. Presence is a flag of the header.
    fn line_if(&mut self, there: bool, name: &[u8], p: usize, e: usize)
        ensures { Showed self.old (line_if there name.now p e) self.new }
    {
        if there {
            self.line(name, p, e.saturating_sub(p));
        }
    }

    pub(crate) fn sections(&mut self, f: u32, e: SectionEnds)
        ensures { Showed self.old (section_lines f e) self.new }
    {
        self.line(b"header", 0, 76);
        self.line_if(format::items_there(f), b"items", 76, e.items);
        self.line_if(format::info_there(f), b"info", e.items, e.info);
        self.line_if(format::name_there(f), b"name", e.info, e.name);
        self.line_if(format::relative_there(f), b"relative", e.name, e.relative);
        self.line_if(format::workdir_there(f), b"workdir", e.relative, e.workdir);
        self.line_if(
            format::arguments_there(f),
            b"arguments",
            e.workdir,
            e.arguments,
        );
        self.line_if(format::icon_there(f), b"icon", e.arguments, e.icon);
    }

    // The blocks from `from` on and their terminal.
    pub(crate) fn blocks(&mut self, s: &[u8], from: usize)
        ensures { BlocksShowed s.now from self.old self.new }
    {
        let outside = s.len() < from;
        if outside {
            return;
        }
        // Each line names the place, and the walk ends at a block and at no index.
        let mut p = from;
        loop {
            match blocks::step(&s[p..]) {
                Ok(Some(b)) => {
                    self.line(b"block", p, b.len);
                    p += b.len;
                }
                Ok(None) => return self.line(b"end", p, 4),
                Err(_) => return,
            }
        }
    }
}
