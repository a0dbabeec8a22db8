// Measuring: a station's present values, as they are told to the line.
ghost use Rattle.std.specs.Prelude.{◌≡◌, ◌<◌, length, IfOk};
ghost use Rattle.line.specs.Lines.{line_view};
ghost use Rattle.line.specs.Calling.{station_asked, measuring_asked, settled, told_done, line_measured};

use crate::find::find;
use crate::line::Line;
use crate::refusal::Refusal;
use frame::station_number::StationNumber;

impl Line {
    // The place of the station that a call names.
    // Kept: a place is a number less than that of the stations, and no lent station, since one that was lent by itself could
    // come back with another ring.
    pub(crate) fn station_asked(&self, number: StationNumber) -> Result<usize, Refusal>
        ensures asked { result ≡ station_asked (line_view self.now) number.value }
        ensures within { IfOk result (λ k. k < length self.now.stations.items) }
    {
        find(self.stations.as_slice(), number.value).ok_or(Refusal::UnknownNumber)
    }

    // The questions of measuring, in their order.
    pub(crate) fn measuring_asked(&self, number: StationNumber) -> Result<usize, Refusal>
        ensures asked { result ≡ measuring_asked (line_view self.now) number.value }
        ensures within { IfOk result (λ k. k < length self.now.stations.items) }
    {
        self.enrolled_asked()?;
        self.station_asked(number)
    }

    fn measure_at(&mut self, place: usize, demand: u32, predicted: u32)
        requires { place < length self.old.stations.items }
        ensures { line_view self.new ≡ line_measured (line_view self.old) demand predicted place }
    {
        self.stations[place].measure(demand, predicted);
    }

    // Sets the present demand and predicted power of a station, in kW; above 9,999 they are kept as 9,999.
    pub fn measure(
        &mut self,
        number: StationNumber,
        demand: u32,
        predicted: u32,
    ) -> Result<(), Refusal>
        ensures result { result ≡ told_done (measuring_asked (line_view self.old) number.value) }
        ensures line { line_view self.new ≡ settled (measuring_asked (line_view self.old) number.value) (line_view self.old) (line_measured (line_view self.old) demand predicted) }
    {
        let place = self.measuring_asked(number)?;
        self.measure_at(place, demand, predicted);
        Ok(())
    }
}
