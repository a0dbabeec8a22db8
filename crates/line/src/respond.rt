// What the line does at one signal, over its parts.
ghost use Rattle.std.specs.Prelude.{◌≡◌, ◌≤◌, length};
ghost use Rattle.frame.specs.Reception.{link_of, step};
ghost use Rattle.frame.specs.Requests.{opened};
ghost use Rattle.line.specs.Shares.{event_shares, half_hour_shares, alike};
ghost use Rattle.line.specs.Lines.{views_of};
ghost use Rattle.line.specs.Receiving.{lent, outcome, dispatched, followed};

use crate::find::place_of;
use crate::shares::Shares;
use command::event::Event;
use command::half_hour::HalfHour;
use command::respond::{Reply, respond};
use command::station::Station;
use frame::fault::Fault;
use frame::parse::parse;
use frame::receiver::Receiver;
use frame::signal::Signal;
use memory::SettingsMemory;

// Kept: a `&mut [u8; 567]` would cut the buffer in two, and the clauses say what the whole of it ends as.
// Kept: that each station has a page and rings of the shares' sizes is said of things that are lent apart.
// Has the station that a frame names answer it, by its page and its shares.
fn dispatch<M: SettingsMemory>(
    frame: &[u8],
    stations: &mut [Station],
    memory: &mut M,
    events: &Shares<'_, Event>,
    half_hours: &Shares<'_, HalfHour>,
    answer: &mut [u8],
) -> Result<Option<Reply>, Fault>
    requires few { length stations.old ≤ 32 }
    requires paged { length stations.old ≤ length (M.pages memory.old) }
    requires events { event_shares stations.old ≡ alike events.now.count events.now.size }
    requires half_hours { half_hour_shares stations.old ≡ alike half_hours.now.count half_hours.now.size }
    requires room { 567 ≤ length answer.old }
    ensures told { outcome result answer.new (views_of stations.exit.now) (M.pages memory.new) ≡ dispatched (lent (views_of stations.entry.now) (M.pages memory.old) events.now half_hours.now) answer.old (opened frame.now) }
    ensures event_shares { event_shares stations.new ≡ event_shares stations.old }
    ensures half_hour_shares { half_hour_shares stations.new ≡ half_hour_shares stations.old }
{
    let request = parse(frame)?;
    let place = place_of(stations, request.station)?;
    let reply = respond(
        &request,
        &mut stations[place],
        memory,
        place as u16,
        events.at(place),
        half_hours.at(place),
        answer,
    )
    .unwrap();
    Ok(Some(reply))
}

// Takes one signal, and has the frame that it ends answered, if any.
pub(crate) fn follow<M: SettingsMemory>(
    receiver: &mut Receiver,
    signal: Signal,
    stations: &mut [Station],
    memory: &mut M,
    events: &Shares<'_, Event>,
    half_hours: &Shares<'_, HalfHour>,
    answer: &mut [u8],
) -> Result<Option<Reply>, Fault>
    requires few { length stations.old ≤ 32 }
    requires paged { length stations.old ≤ length (M.pages memory.old) }
    requires events { event_shares stations.old ≡ alike events.now.count events.now.size }
    requires half_hours { half_hour_shares stations.old ≡ alike half_hours.now.count half_hours.now.size }
    requires room { 567 ≤ length answer.old }
    ensures link { link_of receiver.new ≡ (step (link_of receiver.old) signal).next }
    ensures told { outcome result answer.new (views_of stations.exit.now) (M.pages memory.new) ≡ followed (lent (views_of stations.entry.now) (M.pages memory.old) events.now half_hours.now) answer.old (step (link_of receiver.old) signal).told }
    ensures event_shares { event_shares stations.new ≡ event_shares stations.old }
    ensures half_hour_shares { half_hour_shares stations.new ≡ half_hour_shares stations.old }
{
    let Some(frame) = receiver.receive(signal)? else {
        return Ok(None);
    };
    dispatch(frame, stations, memory, events, half_hours, answer)
}
