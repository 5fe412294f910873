//! A text that is written piece by piece.

ghost use Rattle.std.specs.Prelude.{◌≡◌, ◌<◌, ◌+◌, ◌∷◌, ◌++◌, [], false, true, IfOk, OnErr, OnOk, IsOkUnless, string_bytes};
ghost use Rattle.std.specs.Fmt.{decimal};
ghost use Rattle.dsr_base.specs.Joined.{more_joined};
ghost use Rattle.dsr_names.specs.Actor.{actor_text};
ghost use Rattle.dsr_names.specs.Token.{old_text};
ghost use Rattle.dsr_request.specs.AnswerText.{answer_text};
ghost use Rattle.dsr_request.specs.OpText.{op_text};
ghost use Rattle.dsr_request.specs.RequestText.{request_token};
ghost use Rattle.dsr_request.specs.RequestsText.{requests_text};
ghost use Rattle.dsr_desk.specs.ContentText.{content_text};
ghost use Rattle.dsr_desk.specs.SignersText.{signers_text};
ghost use Rattle.dsr_desk.specs.StatementText.{statement_text};
ghost use Rattle.dsr_reasons.specs.Reason.{one_of};
ghost use Rattle.dsr_reasons.specs.Digits.{last_two};

use dsr_desk::Statement;
use dsr_names::{Actor, Refusal};
use dsr_request::{Answer, Name, Op, Request, Requests};
use http_server::Log;
use itoa::Buffer;
use std::alloc::Global;
use std::marker::Model;

/// A text that is written piece by piece, for which its calls allocate. If memory runs out, the writer remembers it: its user checks once, when it asks
/// for the whole text, and not after each piece.
///
/// Contracts see a writer as all pieces that were put, including those for which memory was refused.
#[derive(Drop)]
pub struct Writer {
    text: String,
    /// Whether memory ran out: then the text is not all that was put.
    is_broken: bool,
    /// All that was put, as proofs read it; it has no bytes.
    pieces: Log<Piece, String>,
}

impl Model for Writer {
    ghost use Rattle.std.specs.Prelude.{List, ℕ};
    ghost use Rattle.dsr_reasons.specs.Support.WriterFields.{put_in, IsWhole};

    ghost Value = { List ℕ };

    ghost view = { put_in };

    ghost invariant = { IsWhole };
}

impl Writer {
    /// Begins an empty text.
    pub fn new(alloc: Global) -> Writer
        ensures { result ≡ [] }
    {
        Writer {
            text: String::new(alloc),
            is_broken: false,
            pieces: Log::new(),
        }
    }

    /// Reserves room for this many bytes more. If memory is refused here, the text still grows as needed.
    pub fn reserve(&mut self, bytes: usize)
        ensures { self.new ≡ self.old }
    {
        let _ = self.text.reserve(bytes);
    }

    /// Appends the piece.
    pub fn put(&mut self, piece: &'static str)
        ensures { self.new ≡ self.old ++ piece.now }
    {
        let is_put = self.text.push_str(piece).is_ok();
        remember(&mut self.is_broken, is_put);
        self.pieces = self.pieces.and(&Piece::Text(piece), &self.text);
    }

    /// Appends the word if `as_data`, otherwise the sentence.
    pub fn put_one(&mut self, as_data: bool, word: &'static str, sentence: &'static str)
        ensures { self.new ≡ self.old ++ one_of as_data word.now sentence.now }
    {
        self.put(one_of(as_data, word, sentence));
    }

    /// Appends the actor's name.
    pub fn put_name(&mut self, actor: Actor)
        ensures { self.new ≡ self.old ++ actor_text actor }
    {
        match actor {
            Actor::Replica(replica) => self.put_lettered('r', replica.number()),
            Actor::Client(client) => self.put_lettered('c', client.number()),
        }
    }

    /// Appends the names of those who signed, joined by plus signs; a dash if there are none.
    pub fn put_signers(&mut self, signers: &[Actor])
        ensures { self.new ≡ self.old ++ signers_text signers.now }
    {
        match signers {
            [] => self.put("-"),
            [first, others @ ..] => {
                self.put_name(*first);
                self.put_others(others);
            }
        }
    }

    /// Appends these names, each after a plus sign.
    fn put_others(&mut self, signers: &[Actor])
        ensures { self.new ≡ self.old ++ more_joined 43 actor_text signers.now }
    {
        match signers {
            [] => {}
            [first, others @ ..] => {
                self.put("+");
                self.put_name(*first);
                self.put_others(others);
            }
        }
    }

    /// Appends the number.
    pub fn put_number(&mut self, number: u64)
        ensures { self.new ≡ self.old ++ decimal number }
    {
        if number < 100 {
            self.put_short(number);
        } else {
            self.put_long(number);
        }
    }

    /// Appends the text.
    pub fn put_text(&mut self, text: &String)
        ensures { self.new ≡ self.old ++ string_bytes text.now }
    {
        let is_put = self.text.push_str(text.as_str()).is_ok();
        remember(&mut self.is_broken, is_put);
        self.pieces = self.pieces.and(&Piece::Shown, text);
    }

    /// Appends all that was put into the other writer. `NoMemory` if memory ran out while the other was written: then nothing is appended.
    pub fn put_all_of(&mut self, other: &Writer) -> Result<(), Refusal>
        ensures put { OnOk result (self.new ≡ self.old ++ other.now) }
        ensures stays { OnErr result (self.new ≡ self.old) }
        ensures refusal { IsOkUnless result Refusal.NoMemory }
    {
        if other.is_broken {
            return Err(Refusal::NoMemory);
        }
        self.put_text(&other.text);
        Ok(())
    }

    /// Appends the request.
    pub fn put_request(&mut self, request: &Request)
        ensures { self.new ≡ self.old ++ request_token request.now }
    {
        self.put_name(Actor::Client(request.client()));
        self.put("#");
        self.put_number(request.number());
        self.put(":");
        self.put_op(&request.op());
    }

    /// Appends the operation, with colons between its parts.
    fn put_op(&mut self, op: &Op)
        ensures { self.new ≡ self.old ++ op_text 58 op.now }
    {
        match op {
            Op::Read { name } => {
                self.put("read:");
                self.put_register(name);
            }
            Op::Write { name, value } => {
                self.put("write:");
                self.put_register(name);
                self.put(":");
                self.put_number(*value);
            }
            Op::Swap { name, from, to } => {
                self.put("swap:");
                self.put_register(name);
                self.put(":");
                self.put_held(*from);
                self.put(":");
                self.put_number(*to);
            }
            Op::Remove { name } => {
                self.put("remove:");
                self.put_register(name);
            }
        }
    }

    /// Appends the answer.
    pub fn put_answer(&mut self, answer: &Answer)
        ensures { self.new ≡ self.old ++ answer_text answer.now }
    {
        let (words, held) = answer.parts();
        self.put(words);
        if let Some(held) = held {
            self.put_held(held);
        }
    }

    /// Appends what a register holds: a number, or that it holds none.
    fn put_held(&mut self, held: Option<u64>)
        ensures { self.new ≡ self.old ++ old_text held }
    {
        match held {
            None => self.put("none"),
            Some(number) => self.put_number(number),
        }
    }

    /// Appends the statement.
    pub fn put_statement(&mut self, statement: &Statement)
        ensures { self.new ≡ self.old ++ statement_text statement.now }
    {
        match statement {
            Statement::Ask(request) => self.put_request(request),
            Statement::Link {
                slot,
                value,
                before,
            } => {
                self.put_number(*slot);
                self.put("/");
                self.put_content(value);
                self.put("/");
                self.put_signers(before.as_slice());
            }
        }
    }

    /// Appends the content of a slot: its requests, joined by commas, or that it is idle.
    pub fn put_content(&mut self, content: &Option<Requests>)
        ensures { self.new ≡ self.old ++ content_text content.now }
    {
        match content {
            None => self.put("idle"),
            Some(requests) => self.put_requests(requests.as_slice()),
        }
    }

    /// Appends these requests, joined by commas.
    fn put_requests(&mut self, requests: &[Request])
        ensures { self.new ≡ self.old ++ requests_text requests.now }
    {
        match requests {
            [] => {}
            [first, others @ ..] => {
                self.put_request(first);
                self.put_more(others);
            }
        }
    }

    /// Appends these requests, each after a comma.
    fn put_more(&mut self, requests: &[Request])
        ensures { self.new ≡ self.old ++ more_joined 44 request_token requests.now }
    {
        match requests {
            [] => {}
            [first, others @ ..] => {
                self.put(",");
                self.put_request(first);
                self.put_more(others);
            }
        }
    }

    /// Appends the letter and the number. Requires a letter of ASCII, and a number below 100.
    fn put_lettered(&mut self, letter: char, number: u8)
        requires { (letter < 128) × (number < 100) }
        ensures { self.new ≡ self.old ++ (letter ∷ decimal number) }
    {
        self.put_char(letter);
        self.put_short(number as u64);
    }

    /// Appends the register's name.
    fn put_register(&mut self, name: &Name)
        ensures { self.new ≡ self.old ++ name.now }
    {
        let is_put = self.text.push_str(name.as_str()).is_ok();
        remember(&mut self.is_broken, is_put);
        self.pieces = self.pieces.and(&Piece::Register(*name), &self.text);
    }

    /// Appends the number.
    fn put_long(&mut self, number: u64)
        ensures { self.new ≡ self.old ++ decimal number }
    {
        let is_put = self.text.push_str(Buffer::new().format(number)).is_ok();
        remember(&mut self.is_broken, is_put);
        self.pieces = self.pieces.and(&Piece::Number(number), &self.text);
    }

    /// Appends the number, which is below 100: `put_number` takes several times as long for a greater one.
    fn put_short(&mut self, number: u64)
        requires { number < 100 }
        ensures { self.new ≡ self.old ++ decimal number }
    {
        if number < 10 {
            self.put_digit(number);
        } else {
            self.put_two_digits(number);
        }
    }

    /// Appends the two last digits of the number.
    pub fn put_two_digits(&mut self, number: u64)
        ensures { self.new ≡ self.old ++ last_two number }
    {
        self.put_digit(number / 10 % 10);
        self.put_digit(number % 10);
    }

    /// Appends the digit.
    fn put_digit(&mut self, digit: u64)
        requires { digit < 10 }
        ensures { self.new ≡ self.old ++ ((48 + digit) ∷ []) }
    {
        self.put_char((b'0' + digit as u8) as char);
    }

    /// Appends the character, which is one of ASCII.
    fn put_char(&mut self, character: char)
        requires { character < 128 }
        ensures { self.new ≡ self.old ++ (character ∷ []) }
    {
        let is_put = self.text.push(character).is_ok();
        remember(&mut self.is_broken, is_put);
        self.pieces = self.pieces.and(&Piece::Char(character), &self.text);
    }

    /// Forgets all pieces, but not that memory ran out.
    pub fn clear(&mut self)
        ensures { self.new ≡ [] }
    {
        self.text.clear();
        self.pieces = Log::new();
    }

    /// Returns the whole text. `NoMemory` if memory ran out while it was written.
    pub fn whole(&self) -> Result<&str, Refusal>
        ensures whole { IfOk result (λ text. text.now ≡ self.now) }
        ensures refusal { IsOkUnless result Refusal.NoMemory }
    {
        if self.is_broken {
            Err(Refusal::NoMemory)
        } else {
            Ok(self.text.as_str())
        }
    }

    /// Ends the text, and returns it. `NoMemory` if memory ran out while it was written.
    pub fn finish(self) -> Result<String, Refusal>
        ensures whole { IfOk result (λ text. string_bytes text ≡ self) }
        ensures refusal { IsOkUnless result Refusal.NoMemory }
    {
        if self.is_broken {
            Err(Refusal::NoMemory)
        } else {
            Ok(self.text)
        }
    }

    /// Tells whether nothing was written.
    pub fn is_empty(&self) -> bool {
        self.text.is_empty()
    }
}

/// Remembers that memory ran out if a piece was not put.
fn remember(is_broken: &mut bool, is_put: bool)
    ensures { is_broken.new ≡ false → (is_broken.old ≡ false) × (is_put ≡ true) }
{
    if !is_put {
        *is_broken = true;
    }
}

/// Returns the word if `as_data`, otherwise the sentence.
pub fn one_of(as_data: bool, word: &'static str, sentence: &'static str) -> &'static str
    ensures { result.now ≡ one_of as_data word.now sentence.now }
{
    if as_data { word } else { sentence }
}

/// A piece that was put.
#[derive(Clone, Copy)]
pub(crate) enum Piece {
    Text(&'static str),
    Char(char),
    Number(u64),
    Register(Name),
    /// The text beside it in the list.
    Shown,
}
