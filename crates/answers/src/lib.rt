// What a request is answered, from the pack and the hire that it is asked of, into a lent buffer. Nothing is changed here.
#![tactic(auto)]

mod length;
mod registers;

ghost use Rattle.std.specs.Prelude.{Ok, ◌∷◌, ◌++◌, ◌≡◌, ◌≤◌, min, length, get_or};
ghost use Rattle.laws.specs.Row.{row};
ghost use Rattle.refusals.specs.Refusals.{giving};
ghost use Rattle.requests.specs.Requests.{request_of};
ghost use Rattle.numbers.specs.Numbers.{be16, Wrote};
ghost use Rattle.replies.specs.Replies.{word16, words, sealed, Filled};
ghost use Rattle.answers.specs.Answers.{body_of, taken_reply, accepted_reply, refused_reply, asked_outcome, asked_settings, taking, Answers};
ghost use Rattle.answers.specs.Making.{count_of, word_of, reply_of};

use crate::registers::{block, listed};
use hire::Hire;
pub use length::length_in;
use numbers::WORDS;
use pack::Pack;
use refusals::Refusal;
pub use registers::register;
use requests::{Query, Request};
use settings::Settings;
use writes::Form;

// What an accepted request asks, and the settings that then stand.
#[derive(Clone, Copy)]
pub struct Taken {
    pub asked: Request,
    pub settings: Settings,
}

// The reply to a request, of any bytes; and what is taken of it.
pub fn answer(pack: Pack, hire: Hire, request: &[u8], reply: &mut [u8]) -> Result<Taken, Refusal>
    ensures { Answers pack hire request.now reply.old result reply.new }
{
    let decided = decide(pack, request);
    match decided {
        Ok(taken) => put_accepted(pack, hire, request, taken.asked, reply),
        Err(refusal) => put_refusal(refusal, request, reply),
    }
    decided
}

// What is taken of the request, or why it is refused.
fn decide(pack: Pack, request: &[u8]) -> Result<Taken, Refusal>
    ensures { result ≡ taking pack request.now (request_of request.now) }
{
    let asked = requests::parsed(request)?;
    let settings = settings_after(pack, request, asked)?;
    Ok(Taken { asked, settings })
}

// A write goes through the settings' one judgement; after any other request they stay.
#[tactic(auto, unfolding(crate::specs::Answers::asked_outcome, crate::specs::Answers::asked_settings))]
fn settings_after(pack: Pack, request: &[u8], asked: Request) -> Result<Settings, Refusal>
    ensures { result ≡ giving (asked_outcome pack request.now (Ok asked)) (asked_settings pack request.now (Ok asked)) }
{
    match asked {
        Request::Write { form, count } => writes::written(pack.settings, request, form, count),
        Request::ClearEvents | Request::ClearStatistics | Request::Read(_) => Ok(pack.settings),
    }
}

// A NACK names the request's second byte.
fn put_refusal(refusal: Refusal, request: &[u8], reply: &mut [u8])
    ensures { Filled reply.old (refused_reply refusal request.now) reply.new }
{
    match refusal.leaves() {
        None => replies::zero_from(reply, 0),
        Some(error) => replies::nack(reply, numbers::byte_at(request, 1), error),
    }
}

// The reply to what is accepted.
#[tactic(auto, unfolding(crate::specs::Answers::accepted_reply))]
fn put_accepted(pack: Pack, hire: Hire, request: &[u8], asked: Request, reply: &mut [u8])
    requires { Ok asked ≡ request_of request.now }
    ensures { Filled reply.old (accepted_reply pack hire request.now (Ok asked)) reply.new }
{
    match asked {
        Request::ClearEvents => replies::ack(reply, 0x02),
        Request::ClearStatistics => replies::ack(reply, 0x02),
        Request::Write { form, count } => put_taken(request, form, count, reply),
        Request::Read(query) => read(pack, hire, request, query, reply),
    }
}

// Address and RL of 0x10, or an ACK.
#[tactic(auto, unfolding(crate::specs::Answers::taken_reply))]
fn put_taken(request: &[u8], form: Form, count: u8, reply: &mut [u8])
    ensures { Filled reply.old (sealed (taken_reply form request.now count)) reply.new }
{
    match form {
        Form::Modbus => put_address(writes::write_address(request), count, reply),
        Form::Block => replies::ack(reply, 0x0B),
        Form::List => replies::ack(reply, 0x0D),
    }
}

fn put_address(address: u16, count: u8, reply: &mut [u8])
    ensures { Filled reply.old (sealed (0xAA ∷ 0x10 ∷ be16 address ++ be16 count)) reply.new }
{
    replies::begin(reply, 0x10);
    replies::put_word(reply, 2, true, address);
    replies::put_word(reply, 4, true, count as u16);
    replies::seal(reply, 6);
}

// A query is answered by its words; no request asks for more than 127.
fn read(pack: Pack, hire: Hire, request: &[u8], query: Query, reply: &mut [u8])
    requires { request_of request.now ≡ Ok (Request.Read query) }
    ensures { Filled reply.old (sealed (body_of pack hire request.now query)) reply.new }
{
    let events = hire.events;
    // A board has 16 cells at most.
    let cells = pack.cells.min(16);
    let count = query.word_count(events.new_count(), events.kept_count(), cells);
    send(pack, hire, request, query, count, reply);
}

fn send(pack: Pack, hire: Hire, request: &[u8], query: Query, count: u16, reply: &mut [u8])
    requires { (request_of request.now ≡ Ok (Request.Read query)) × ((count ≡ count_of pack hire query) × (count ≤ 127)) }
    ensures { Filled reply.old (sealed (reply_of pack hire request.now query count)) reply.new }
{
    let words = words_of(pack, hire, request, query, count as u8);
    replies::begin(reply, query.command());
    let from = replies::put_length(reply, query.has_length(), (2 * count) as u8);
    put_words(&words, query.high_first(), from, count, reply);
    replies::seal(reply, from + 2 * (count as usize));
}

fn put_words(given: &[u16], high_first: bool, from: usize, count: u16, reply: &mut [u8])
    requires { (from ≤ 3) × ((count ≤ 127) × (127 ≤ length given.now)) }
    ensures { Wrote reply.old from (words (word16 high_first) (λ i. get_or given.now i 0) 0 count) reply.new }
{
    for (i, word) in given[..count as usize].iter().enumerate() {
        replies::put_word(reply, from + 2 * i, high_first, *word);
    }
}

// All words of a reply at once: a word by itself would be handed the whole hire.
fn words_of(pack: Pack, hire: Hire, request: &[u8], query: Query, count: u8) -> [u16; WORDS]
    requires { (request_of request.now ≡ Ok (Request.Read query)) × ((count ≡ count_of pack hire query) × (count ≤ 127)) }
    ensures { result ≡ row 127 (word_of pack hire request.now query) count }
{
    let lifetime = pack.clock.seconds;
    match query {
        Query::Registers {
            command: _,
            at,
            count: _,
        } => block(pack, hire, at, count),
        Query::Listed { count: _ } => listed(pack, hire, request, count),
        Query::Bare {
            command: _,
            at,
            count: _,
        } => block(pack, hire, at, count),
        Query::NewEvents => hire.events.new_words(lifetime, count),
        Query::AllEvents => hire.events.kept_words(lifetime, count),
        Query::Temperatures => hire.sensed.temperatures(count),
        Query::Cells => block(pack, hire, 0, count),
        Query::SettingsOf { kind, count: _ } => pack.settings.of_kind(kind).registers(0, count),
    }
}
