//! Reads a play and writes the transcript of what its actors did.

ghost use Rattle.std.specs.Prelude.{◌≡◌, ◌⊎◌, ◌+◌, ◌<◌, ◌≤◌, Err, IfOk, IfErr, OnErr, length};
ghost use Rattle.dsr_names.specs.Limits.{most_calls};
ghost use Rattle.dsr_names.specs.Streams.{CanFailToTake, SentAll, SentPrefix, streams};
ghost use Rattle.dsr_play.specs.Play.{IsPlayRefusal};
ghost use Rattle.dsr_record.specs.RecordText.{Fits, record_text};
ghost use Rattle.dsr_reports.specs.Played.{HasPlayed, HasRun, IsTranscript, LeftAfterPlay, PlayedAll};

use dsr_names::{Refusal, Sink, Source, read_input};
use dsr_record::{Record, transcripts_spell_their_records, write};
use dsr_world::{Play, RunEnd, World};
use std::alloc::Global;
use std::mem::forget;

/// The world after a play, and how the play's events ended.
#[derive(Drop)]
struct Played {
    world: World,
    end: RunEnd,
}

/// The steps of a play's actors, the number of its refused events, and the number of those refused because memory ran out.
#[derive(Drop)]
struct Recording {
    recorded: Record,
    refused: u64,
    starved: u64,
}

/// Plays the play that the text encodes, in a new world, which keeps the steps.
fn play_out(alloc: Global, text: &[u8]) -> Result<Played, Refusal>
    ensures played { IfOk result (λ played. HasRun text.now played.world.shape played.world.run played.end) }
    ensures refused { IfErr result (IsPlayRefusal text.now) }
{
    let play = match Play::read(alloc, text) {
        Ok(play) => play,
        Err(refusal) => return Err(refusal),
    };
    let Ok(mut world) = World::open(alloc, play.shape()) else {
        return Err(Refusal::NoMemory);
    };
    let end = world.run(alloc, play.events());
    forget(play);
    Ok(Played { world, end })
}

/// Plays the play that the text encodes, and records all steps.
fn recording_of(alloc: Global, text: &[u8]) -> Result<Recording, Refusal>
    ensures played { IfOk result (λ recording. HasPlayed IsTranscript text.now recording.refused recording.starved (record_text recording.recorded)) }
    ensures fits { IfOk result (λ recording. Fits recording.recorded) }
    ensures refused { IfErr result (IsPlayRefusal text.now) }
{
    let played = match play_out(alloc, text) {
        Ok(played) => played,
        Err(refusal) => return Err(refusal),
    };
    let Ok(recorded) = Record::of_world(alloc, &played.world) else {
        return Err(Refusal::NoMemory);
    };
    transcripts_spell_their_records(&recorded);
    let (refused, starved) = (played.end.refused, played.end.starved);
    // As the stage of a play that is reported, the world is not freed.
    forget(played);
    Ok(Recording {
        recorded,
        refused,
        starved,
    })
}

/// Reads a play, plays it like `run_play`, and writes the transcript of all steps in place of the report. Its refusals, and what remains
/// after each, are those of `run_play`. It also returns `NoMemory` if memory for the transcript runs out; then it wrote nothing.
pub fn transcribe_play<S: Source, K: Sink>(
    alloc: Global,
    source: &mut S,
    sink: &mut K,
) -> Result<u64, Refusal>
    ensures done { IfOk result (λ refused. PlayedAll IsTranscript refused (streams (S.input source.old) (K.output sink.old) (K.output sink.new))) }
    ensures refused { IfErr result (λ e. LeftAfterPlay IsTranscript e (streams (S.input source.old) (K.output sink.old) (K.output sink.new))) }
    ensures reads { (S.input source.new).calls ≤ (S.input source.old).calls + most_calls }
    ensures writes { (K.output sink.new).calls ≤ (K.output sink.old).calls + most_calls }
{
    let text = read_input(alloc, source)?;
    let recording = match recording_of(alloc, text.as_slice()) {
        Ok(recording) => recording,
        Err(refusal) => return Err(refusal),
    };
    let given = give_out(alloc, sink, &recording);
    forget(recording);
    given
}

/// Writes the transcript, and returns how many events were refused, or `NoMemory` if some were refused for that.
fn give_out<K: Sink>(alloc: Global, sink: &mut K, recording: &Recording) -> Result<u64, Refusal>
    requires { Fits recording.now.recorded }
    ensures done { IfOk result (λ refused. (refused ≡ recording.now.refused) × (recording.now.starved ≡ 0)
        × SentAll (record_text recording.now.recorded) (K.output sink.old) (K.output sink.new)) }
    ensures starved { result ≡ Err Refusal.NoMemory → (K.output sink.new).contents ≡ (K.output sink.old).contents
        ⊎ ((0 < recording.now.starved) × SentAll (record_text recording.now.recorded) (K.output sink.old) (K.output sink.new)) }
    ensures failed { result ≡ Err Refusal.WriteFailed → CanFailToTake (length (record_text recording.now.recorded)) (K.output sink.old)
        × SentPrefix (record_text recording.now.recorded) (K.output sink.old) (K.output sink.new) }
    ensures refusals { OnErr result (result ≡ Err Refusal.NoMemory ⊎ result ≡ Err Refusal.WriteFailed) }
    ensures writes { (K.output sink.new).calls ≤ (K.output sink.old).calls + most_calls }
{
    match write(alloc, &recording.recorded, sink) {
        Ok(()) if recording.starved == 0 => Ok(recording.refused),
        Ok(()) => Err(Refusal::NoMemory),
        Err(refusal) => Err(refusal),
    }
}
