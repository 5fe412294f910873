ghost use Rattle.std.specs.Prelude.{◌≡◌, ℕ, ◌+◌, ◌<◌, ◌≤◌, ◌^◌, ◌↔◌, ◌∷◌, [], List, All, Option, length, map, reverse, if◌then◌else◌, Some, OnOk, OnErr, IsOk, IfSome, IfOk, IsTrue, IsOkUnless};
ghost use Rattle.dsr_register.specs.Values.{value};
ghost use Rattle.dsr_request.specs.Request.{Request};
ghost use Rattle.dsr_history.specs.History.{acted, acting, rises_above, operations, reply, reply_in, answer_at, IsReplyTo};
ghost use Rattle.dsr_history.specs.Machine.{StandsFor};

use crate::service::Service;
use dsr_ledger::Reply;
use dsr_names::{ClientId, Refusal, Shape};
use dsr_request::{Answer, MOST_REQUESTS, Name, Request};
use std::alloc::Global;
use std::marker::Model;

/// The sequential directory that processes values one after another. It stores the history of the requests that
/// acted, their answers, and the last reply to each client. It replays nothing: the directory is kept up to date.
#[derive(Drop)]
pub struct Machine {
    service: Service,
    history: Vec<Request>,
    answers: Vec<Answer>,
}

impl Model for Machine {
    ghost use Rattle.dsr_history.specs.Machine.{Machine};

    ghost Value = { Machine };

    ghost use Rattle.dsr_history.specs.Support.Machine.{state_of, IsMachine};

    ghost view = { state_of };

    ghost invariant = { IsMachine };
}

impl Machine {
    /// Creates a machine that has accepted no value, for the clients of the shape. `NoMemory` if the memory for its
    /// registers and replies is refused.
    pub fn new(alloc: Global, shape: &Shape) -> Result<Machine, Refusal>
        ensures empty { IfOk result (λ machine. machine.history ≡ []) }
        ensures clients { IfOk result (λ machine. machine.clients ≡ shape.now.m) }
        ensures refusal { IsOkUnless result Refusal.NoMemory }
    {
        let service = Service::new(alloc, shape)?;
        Ok(Machine {
            service,
            history: Vec::new(alloc),
            answers: Vec::new(alloc),
        })
    }

    /// Makes room for the next value: `accept_value` then allocates nothing. `NoMemory` if it is refused: then
    /// nothing changes, except that there may be more room. It is not refused if there is room already.
    pub fn room(&mut self) -> Result<(), Refusal>
        ensures ok { OnOk result (8 ≤ self.new.room) }
        ensures has { 8 ≤ self.old.room → IsOk result }
        ensures no_less { self.old.room ≤ self.new.room }
        ensures refusal { IsOkUnless result Refusal.NoMemory }
        ensures history { self.new.history ≡ self.old.history }
        ensures clients { self.new.clients ≡ self.old.clients }
    {
        if self.spare() < MOST_REQUESTS {
            self.history.reserve(MOST_REQUESTS)?;
            self.answers.reserve(MOST_REQUESTS)?;
        }
        Ok(())
    }

    /// Returns for how many more requests both lists have room. If that is less than 8, `accept_value` makes more,
    /// however few its requests are.
    pub fn spare(&self) -> usize
        ensures { result ≡ self.now.room }
    {
        let history = self.history.capacity() - self.history.len();
        let answers = self.answers.capacity() - self.answers.len();
        history.min(answers)
    }

    /// Processes the requests of a value in the order of its list, and returns how many of them acted; the empty list
    /// is the idle value. Requires at most 8 requests, all of clients of the shape, and a history shorter than 2^39.
    /// `NoMemory` if there was room for fewer than 8 requests and memory for more was refused: then nothing changes,
    /// except that there may be more room. Otherwise no more room is used up than the requests take.
    pub fn accept_value(&mut self, requests: &[Request]) -> Result<u8, Refusal>
        requires few { length requests.now ≤ 8 }
        requires clients { All (λ r. r.client < self.old.clients) requests.now }
        requires short { length self.old.history < 2 ^ 39 }
        ensures accepted { OnOk result ((values : List (List Request)) → StandsFor self.old values → StandsFor self.new (requests.now ∷ values)) }
        ensures count { IfOk result (λ n. length self.new.history ≡ length self.old.history + n) }
        ensures most { IfOk result (λ n. n ≤ length requests.now) }
        ensures refusal { IsOkUnless result Refusal.NoMemory }
        ensures unchanged { OnErr result (self.new.history ≡ self.old.history) }
        ensures no_less { OnErr result (self.old.room ≤ self.new.room) }
        ensures clients { self.new.clients ≡ self.old.clients }
        ensures in_room { 8 ≤ self.old.room → IsOk result }
        ensures left { self.old.room ≤ self.new.room + length requests.now }
    {
        self.room()?;
        let mut count = 0;
        for request in requests {
            if self.process(request) {
                count += 1;
            }
        }
        Ok(count)
    }

    /// Processes the request, and returns whether it acted.
    fn process(&mut self, request: &Request) -> bool
        requires room { 0 < self.old.room }
        requires client { request.now.client < self.old.clients }
        requires short { length self.old.history < 2 ^ 40 }
        ensures acted { (older : List Request) → self.old.history ≡ acting older → self.new.history ≡ acting (request.now ∷ older) }
        ensures count { length self.new.history ≡ length self.old.history + (if result then 1 else 0) }
        ensures clients { self.new.clients ≡ self.old.clients }
        ensures room { self.old.room ≤ self.new.room + 1 }
    {
        let Some(answer) = self.service.process(request) else {
            return false;
        };
        self.history.push_reserved(*request);
        self.answers.push_reserved(answer);
        true
    }

    /// Returns the client's last reply, to the last of its requests that acted; `None` if none did.
    pub fn kept(&self, client: ClientId) -> Option<Reply>
        ensures last { result ≡ reply_in self.now.history client }
        ensures stands { IfSome result (IsReplyTo self.now.history client) }
        ensures answer { IfSome result (λ last. answer_at self.now.history last.place ≡ Some last.answer) }
        ensures reply { (values : List (List Request)) → StandsFor self.now values → result ≡ reply values client }
    {
        self.service.kept(client)
    }

    /// Returns the requests that acted, in their order.
    pub fn history(&self) -> &[Request]
        ensures same { result.now ≡ reverse self.now.history }
        ensures acted { (values : List (List Request)) → StandsFor self.now values → result.now ≡ reverse (acted values) }
    {
        self.history.as_slice()
    }

    /// Returns the answer to the request at this place of the history, counted from 0, or `None` past its end.
    pub fn answer_at(&self, place: u64) -> Option<Answer>
        ensures { result ≡ answer_at self.now.history place }
    {
        if place < self.answers.len() as u64 {
            Some(self.answers[place as usize])
        } else {
            None
        }
    }

    /// Returns what the register holds after the whole history, or `None` if it holds nothing.
    pub fn get(&self, name: &Name) -> Option<u64>
        ensures { result ≡ value (operations self.now.history) name.now }
    {
        self.service.get(name)
    }
}
