// Ticking: every clock one second on.
ghost use Rattle.std.specs.Prelude.{◌≡◌};
ghost use Rattle.line.specs.Lines.{line_view};
ghost use Rattle.line.specs.Enrolling.{after};
ghost use Rattle.line.specs.Receiving.{enrolled_asked};
ghost use Rattle.line.specs.Calling.{line_ticked};

use crate::line::Line;
use crate::refusal::Refusal;

impl Line {
    fn tick_all(&mut self)
        ensures { line_view self.new ≡ line_ticked (line_view self.old) }
    {
        for station in self.stations.as_mut_slice() {
            station.tick();
        }
    }

    // Moves every clock one second on; 00-01-01 00:00:00 comes after 99-12-31 23:59:59.
    pub fn tick(&mut self) -> Result<(), Refusal>
        ensures result { result ≡ enrolled_asked (line_view self.old) }
        ensures line { line_view self.new ≡ after (enrolled_asked (line_view self.old)) (line_view self.old) (line_ticked (line_view self.old)) }
    {
        self.enrolled_asked()?;
        self.tick_all();
        Ok(())
    }
}
