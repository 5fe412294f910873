//! What an explanation says if no event is what was wanted.

use crate::parts::Part::{Name, Number, Text};
use crate::parts::put_parts;
use crate::wanted::Wanted;
use dsr_names::{ReplicaId, Shape};
use dsr_reasons::Writer;
use dsr_world::Stage;

/// Writes that no event is what was wanted, and which events, actors and slots there are: `events`, of which `refused` were refused.
pub(crate) fn write_nothing(
    out: &mut Writer,
    stage: &Stage,
    wanted: &Wanted,
    events: u64,
    refused: u64,
) {
    if events == 0 {
        out.put("the play has no events\n");
        return;
    }
    if wanted.refused && refused == 0 {
        put_parts(
            out,
            &[
                Text("no event was refused: all "),
                Number(events),
                Text(" were done\n"),
            ],
        );
        return;
    }
    let (count, kind) = if wanted.refused {
        (refused, " refused events is")
    } else {
        (events, " events is")
    };
    put_parts(out, &[Text("none of the "), Number(count), Text(kind)]);
    write_wanted(out, wanted);
    write_actors(out, stage.shape(), wanted);
    if wanted.slot.is_some() {
        put_parts(
            out,
            &[
                Text("; the slots that have begun are 0 to "),
                Number(last_slot(stage)),
            ],
        );
    }
    out.put("\n");
}

/// Writes which actor and which slot were wanted.
fn write_wanted(out: &mut Writer, wanted: &Wanted) {
    if let Some(actor) = wanted.actor {
        put_parts(out, &[Text(" by "), Name(actor)]);
    }
    if let Some(slot) = wanted.slot {
        put_parts(out, &[Text(" of slot "), Number(slot)]);
    }
}

/// Writes which actors are in the shape, if the wanted one is not.
fn write_actors(out: &mut Writer, shape: &Shape, wanted: &Wanted) {
    match wanted.actor {
        Some(actor) if !shape.has(actor) => put_parts(
            out,
            &[
                Text("; the replicas are r0 to r"),
                Number(shape.n().saturating_sub(1) as u64),
                Text(", and the clients c0 to c"),
                Number(shape.m().saturating_sub(1) as u64),
            ],
        ),
        _ => {}
    }
}

/// Returns the newest slot that has begun at a loyal replica: one begins with each round.
fn last_slot(stage: &Stage) -> u64 {
    let mut last: u64 = 0;
    for number in 0..stage.shape().n() {
        if let Ok(loyal) = stage.replica(ReplicaId::of(number)) {
            last = last.max(loyal.round());
        }
    }
    last
}
