//! What a loyal replica does with what it takes from a client.

ghost use Rattle.std.specs.Prelude.{◌≡◌, []};
ghost use Rattle.dsr_names.specs.declared.actor.Actor.TheVariants.{Replica as ReplicaNumber, Client as ClientNumber};
ghost use Rattle.dsr_play.specs.declared.event.Event.TheVariants.{Take};
ghost use Rattle.dsr_notes.specs.Support.Rest.{Foretells};
ghost use Rattle.dsr_notes.specs.declared.rest.Rest.TheVariants.{Nothing};

use crate::note::Note;
use crate::notes::Notes;
use dsr_envelope::Envelope;
use dsr_names::{Actor, ClientId, ReplicaId};
use dsr_world::Stage;

/// Notes the request that a replica is about to take from a client, if the replica is loyal: it will hold it.
pub(crate) fn note_ask(stage: &Stage, replica: ReplicaId, client: ClientId, notes: &mut Notes)
    requires { notes.old.items ≡ [] }
    ensures { Foretells stage.now.shape stage.now.run (Take (ReplicaNumber replica) (ClientNumber client)) notes.new Nothing }
{
    // For the proof: the logs are those of a run.
    stage.steps_are_a_run();
    let (at, from) = (Actor::Replica(replica), Actor::Client(client));
    let shape = stage.shape();
    if !shape.is_loyal(at) {
        return;
    }
    if !shape.has(from) {
        return;
    }
    let Some(letter) = stage.in_box(&from, &at) else {
        return;
    };
    let Envelope::Ask(ask) = letter.envelope() else {
        unreachable!()
    };
    notes.add(Note::Held {
        request: ask.signed().request,
    });
}
