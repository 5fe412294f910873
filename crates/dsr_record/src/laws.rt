//! The laws that a transcript can write each step, and that a reader of a record's transcript gets that record: the contracts of
//! functions that do nothing.

ghost use Rattle.dsr_names.specs.Actor.{IsNumbered};
ghost use Rattle.dsr_record.specs.RecordText.{IsSpelledStep, Fits, Spells, record_text};

use crate::noted::{NotedEntry, NotedStep};
use crate::record::Record;
use dsr_names::Actor;
use dsr_script::each_draft_has_a_text;

/// States that a line of a transcript of version 2 can write each step.
pub fn each_step_has_a_line(step: &NotedStep)
    ensures { IsSpelledStep step.now }
{
    number_actor(&step.actor());
    match step.entry() {
        NotedEntry::Post { to, envelope } => {
            number_actor(to);
            each_draft_has_a_text(envelope);
        }
        NotedEntry::Take { from, envelope } => {
            number_actor(from);
            each_draft_has_a_text(envelope);
        }
    }
}

/// States that the transcript of a record is a text of that record if a transcript of its version can have its
/// entries. So a reader of the transcript gets that record again.
pub fn transcripts_spell_their_records(recorded: &Record)
    ensures { Fits recorded.now → Spells (record_text recorded.now) recorded.now }
{
    // For the proof: the limits of the shape.
    let _n = recorded.shape().n();
}

/// Shows that texts can name the number of any actor.
fn number_actor(actor: &Actor)
    ensures { IsNumbered actor.now }
{
    match actor {
        Actor::Replica(replica) => {
            let _number = replica.number();
        }
        Actor::Client(client) => {
            let _number = client.number();
        }
    }
}
