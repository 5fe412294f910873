ghost use Rattle.std.specs.Io.KnownBytes.{Keeps};
ghost use Rattle.std.specs.Prelude.{◌≡◌, ◌⊎◌, ◌+◌, ◌≤◌, ℕ, List, IfErr, OnOk};
ghost use Rattle.dsr_names.specs.Limits.{most_calls};
ghost use Rattle.dsr_names.specs.Streams.{SentAll};
ghost use Rattle.dsr_explain.specs.Told.{Explains, LeftAfterFault, LeftOfExplanation, LeftAfterTelling, TellsPlay};

use crate::outlet::{Outflow, Outlet};
use crate::story::Story;
use crate::wanted::Wanted;
use dsr_names::{Refusal, Sink, write_output};
use dsr_trouble::trouble_of;
use dsr_world::Play;
use std::alloc::Global;

/// Runs the play that the text encodes on a new stage, and writes what is wanted about it: the events, each with its line, what came of it and
/// why; then the outcome of each slot, and who waits for whom. If the text is not a play, writes the line, the column and what was expected there, and
/// then returns its refusal.
///
/// If the sink takes parts, a long explanation is written part after part. `NoMemory` if memory runs out: then nothing was written or, if the sink takes
/// parts, the text about some of the first events. `WriteFailed` if writing fails: then a prefix was written. The sink is called at most `MOST_CALLS`
/// times. The memory of the play is not freed: a program should end after the call.
pub fn explain<K: Outlet>(
    alloc: Global,
    text: &[u8],
    wanted: &Wanted,
    sink: &mut K,
) -> Result<(), Refusal>
    ensures told { OnOk result ((told : List ℕ) × Explains text.now wanted.now told × SentAll told (K.output sink.old) (K.output sink.new)) }
    ensures refused { IfErr result (λ refusal. LeftAfterTelling text.now wanted.now refusal (K.output sink.old) (K.output sink.new)) }
    ensures calls { (K.output sink.new).calls ≤ (K.output sink.old).calls + most_calls }
{
    match Play::read(alloc, text) {
        Ok(play) => {
            let told = tell_play(alloc, text, &play, wanted, sink);
            play.leave();
            told
        }
        Err(Refusal::NoMemory) => Err(Refusal::NoMemory),
        Err(refusal) => tell_trouble(alloc, text, refusal, sink),
    }
}

/// Writes what is wrong with the text, which is refused as a play, and returns this refusal. `NoMemory` if memory runs out: then nothing was
/// written.
fn tell_trouble<K: Sink>(
    alloc: Global,
    text: &[u8],
    refusal: Refusal,
    sink: &mut K,
) -> Result<(), Refusal>
    ensures refused { IfErr result (λ left. LeftAfterFault refusal left (K.output sink.old) (K.output sink.new)
        ⊎ ((left ≡ Refusal.NoMemory) × Keeps (K.output sink.old).contents (K.output sink.new).contents)) }
    ensures never { OnOk result ⊥ }
    ensures calls { (K.output sink.new).calls ≤ (K.output sink.old).calls + most_calls }
{
    let Ok(trouble) = trouble_of(alloc, text, &refusal) else {
        return Err(Refusal::NoMemory);
    };
    write_output(sink, trouble.as_bytes())?;
    Err(refusal)
}

/// Writes what is wanted about this play, which the text encodes. The stage on which its events happen is not freed.
fn tell_play<K: Outlet>(
    alloc: Global,
    text: &[u8],
    play: &Play,
    wanted: &Wanted,
    sink: &mut K,
) -> Result<(), Refusal>
    ensures told { OnOk result ((told : List ℕ) × TellsPlay wanted.now play.now told × SentAll told (K.output sink.old) (K.output sink.new)) }
    ensures refused { IfErr result (λ refusal. LeftOfExplanation wanted.now play.now refusal (K.output sink.old) (K.output sink.new)) }
    ensures calls { (K.output sink.new).calls ≤ (K.output sink.old).calls + most_calls }
{
    let (events, outflow) = (play.events().len(), Outflow::to(sink));
    let Ok(mut story) = Story::begin(alloc, play.shape(), wanted, outflow, events) else {
        return Err(Refusal::NoMemory);
    };
    let told = story.tell_play(alloc, text, play, sink);
    story.leave();
    told
}
