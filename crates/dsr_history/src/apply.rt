ghost use Rattle.std.specs.Prelude.{◌≡◌, ℕ, ◌+◌, ◌<◌, ◌≤◌, ◌^◌, List, ◌∷◌, ◌++◌, [], length, codes, Option, Some, OnOk, IfOk, IfErr, IfSome, IfNone, IsOkUnless};
ghost use Rattle.std.specs.Fmt.{decimal};
ghost use Rattle.dsr_names.specs.Limits.{most_calls};
ghost use Rattle.dsr_names.specs.Streams.{streams};
ghost use Rattle.dsr_names.specs.Token.{old_text};
ghost use Rattle.dsr_request.specs.AnswerText.{answer_text};
ghost use Rattle.dsr_request.specs.Request.{Request};
ghost use Rattle.dsr_history.specs.History.{acted};
ghost use Rattle.dsr_history.specs.Support.Service.{IsAfter};
ghost use Rattle.dsr_request.specs.RequestText.{IsRequest};
ghost use Rattle.dsr_history.specs.Applied.{request_line, values_of, applied, AppliedAll, WrittenAfter, IsNoLine, HasAnswered, HasAnsweredTo};

use crate::service::Service;
use dsr_base::split_once;
use dsr_ledger::Reply;
use dsr_names::{Refusal, Shape, Sink, Source, read_input, write_output};
use dsr_request::Request;
use itoa::Buffer;
use std::alloc::{AllocError, Global};

/// A service, and the answers that it gave so far.
#[derive(Drop)]
struct Run {
    service: Service,
    answers: Vec<u8>,
}

impl Run {
    /// Lets the service process a value with this one request, and writes the line that answers it. `NoMemory` if memory
    /// runs out.
    fn answer(&mut self, request: &Request) -> Result<(), Refusal>
        requires client { request.now.client < length self.old.service.replies }
        requires short { self.old.service.count < 2 ^ 39 }
        ensures done { OnOk result ((older : List Request) → IsAfter self.old.service (acted (values_of older))
            → self.old.answers.items ≡ applied older
            → IsAfter self.new.service (acted (values_of (request.now ∷ older))) × (self.new.answers.items ≡ applied (request.now ∷ older))) }
        ensures refusal { IsOkUnless result Refusal.NoMemory }
        ensures clients { length self.new.service.replies ≡ length self.old.service.replies }
        ensures count { self.new.service.count ≤ self.old.service.count + 1 }
    {
        self.service.process(request);
        let kept = self.service.kept(request.client());
        let written = match kept {
            Some(reply) if request.number() < reply.number => {
                self.answers.extend_from_slice(b"old\n")
            }
            Some(reply) => write_reply(&mut self.answers, &reply),
            // A client has a reply after its own line, so this case never comes up.
            None => self.answers.extend_from_slice(b"\n"),
        };
        written.map_err(|_| Refusal::NoMemory)
    }
}

/// Puts the line with the reply at the end of the text. Written by hand, since `writeln!` took a fifth of an `apply`.
fn write_reply(text: &mut Vec<u8>, reply: &Reply) -> Result<(), AllocError>
    ensures { OnOk result (text.new.items ≡ text.old.items
        ++ (decimal reply.now.place ++ (codes " " ++ (answer_text reply.now.answer ++ 10 ∷ [])))) }
{
    let (words, held) = reply.answer.parts();
    text.extend_from_slice(Buffer::new().format(reply.place).as_bytes())?;
    text.extend_from_slice(b" ")?;
    text.extend_from_slice(words.as_bytes())?;
    if let Some(held) = held {
        write_held(text, held)?;
    }
    text.extend_from_slice(b"\n")
}

/// Puts what a register held at the end of the text.
fn write_held(text: &mut Vec<u8>, held: Option<u64>) -> Result<(), AllocError>
    ensures { OnOk result (text.new.items ≡ text.old.items ++ old_text held) }
{
    match held {
        None => text.extend_from_slice(b"none"),
        Some(number) => text.extend_from_slice(Buffer::new().format(number).as_bytes()),
    }
}

/// The request of a line, and the text after that line.
#[derive(Clone, Copy)]
struct Line<'a> {
    request: Request,
    after: &'a [u8],
}

/// Reads the first line of the text. `None` if the text does not begin with the line of a request.
fn first_line(text: &[u8]) -> Option<Line<'_>>
    ensures found { IfSome result (λ line. text.now ≡ request_line line.request ++ line.after.now) }
    ensures request { IfSome result (λ line. IsRequest line.request) }
    ensures none { IfNone result (IsNoLine text.now) }
{
    let (line, after) = split_once(text, b'\n')?;
    let request = Request::read_line(line)?;
    Some(Line { request, after })
}

impl Run {
    /// Answers the lines of the text up to the first bad one, and returns its number, counted from 1, or `None` if no line
    /// is bad. A line is bad unless it is a request's. `NoMemory` if memory runs out.
    fn answer_lines(&mut self, text: &[u8]) -> Result<Option<u64>, Refusal>
        requires clients { length self.old.service.replies ≡ 32 }
        requires new { IsAfter self.old.service [] }
        requires silent { self.old.answers.items ≡ [] }
        requires short { length text.now < 2 ^ 39 }
        ensures all { IfOk result (λ bad. IfNone bad (HasAnswered text.now self.new.answers.items)) }
        ensures bad { IfOk result (λ bad. IfSome bad (λ line. HasAnsweredTo line text.now self.new.answers.items)) }
        ensures refusal { IsOkUnless result Refusal.NoMemory }
    {
        let mut rest = text;
        let mut count = 0;
        while !rest.is_empty() {
            count += 1;
            let Some(line) = first_line(rest) else {
                return Ok(Some(count));
            };
            self.answer(&line.request)?;
            rest = line.after;
        }
        Ok(None)
    }
}

/// The answers to the lines of a text up to the first bad one, and its number, counted from 1, or `None`.
#[derive(Drop)]
struct Answered {
    answers: Vec<u8>,
    bad: Option<u64>,
}

/// Answers the lines of a text like a service that has processed no request. `NoMemory` if memory runs out.
fn answer_text(alloc: Global, text: &[u8]) -> Result<Answered, Refusal>
    requires { length text.now < 2 ^ 39 }
    ensures all { IfOk result (λ answered. IfNone answered.bad (HasAnswered text.now answered.answers.items)) }
    ensures bad { IfOk result (λ answered. IfSome answered.bad (λ line. HasAnsweredTo line text.now answered.answers.items)) }
    ensures refusal { IsOkUnless result Refusal.NoMemory }
{
    let shape = Shape::new(1, 0, 32, 0)?;
    let mut run = Run {
        service: Service::new(alloc, &shape)?,
        // Most answers are shorter than half of their lines.
        answers: Vec::with_capacity(alloc, text.len() / 2)?,
    };
    let bad = run.answer_lines(text)?;
    Ok(Answered {
        answers: run.answers,
        bad,
    })
}

/// Reads lines of requests, `CLIENT NUMBER OPERATION`, and writes the line that answers each: the place and the answer
/// in the reply that its client has after it, or `old` if that reply has a greater number. The directory is empty at
/// first, and every line is one value with one request.
///
/// `BadText` names the first line, counted from 1, that is not a request's; the lines before it are answered. After
/// `NoMemory` and `ReadFailed` nothing was written, and after `WriteFailed` a prefix of the answers was. What was read
/// is dropped. If the source is steady, `ReadFailed` comes only for too many bytes. `WriteFailed` does not come if the
/// sink's known room is enough, nor, for up to `MOST_CALLS` bytes of answers, if the sink is steady. Source and sink
/// are each called at most `MOST_CALLS` times.
pub fn run_apply<S: Source, K: Sink>(
    alloc: Global,
    source: &mut S,
    sink: &mut K,
) -> Result<(), Refusal>
    ensures done { OnOk result (AppliedAll (streams (S.input source.old) (K.output sink.old) (K.output sink.new))) }
    ensures refused { IfErr result (λ e. WrittenAfter e (streams (S.input source.old) (K.output sink.old) (K.output sink.new))) }
    ensures reads { (S.input source.new).calls ≤ (S.input source.old).calls + most_calls }
    ensures writes { (K.output sink.new).calls ≤ (K.output sink.old).calls + most_calls }
{
    let text = read_input(alloc, source)?;
    let answered = answer_text(alloc, text.as_slice())?;
    write_output(sink, answered.answers.as_slice())?;
    match answered.bad {
        None => Ok(()),
        Some(line) => Err(Refusal::BadText { line }),
    }
}
