// What a request asks: read from its bytes alone, with no length trusted.
#![tactic(auto)]

ghost use Rattle.std.specs.Prelude.{◌≡◌, ◌-◌, ◌≤◌};
ghost use Rattle.requests.specs.Requests.{expect, expected_of, expected_in, length_of, in_one_range, clear_fields, block_fields, address_at, all_shown, list_fields, write_fields, kind_of, settings_fields, fields_of, is_unknown, right_length, wrong_length_by, foreign, damaged, request_of, command_of, has_length, high_first, marks, word_count};

use numbers::{byte_at, high_first_16, low_first_16};
use refusals::Refusal;
use settings::Kind;
use writes::Form;

// A request that changes nothing but 0x11's mark. A reply to it is a head and words of sixteen bits. A command is kept as its byte, which the
// reply repeats.
#[derive(Clone, Copy)]
pub enum Query {
    Registers { command: u8, at: u16, count: u8 }, // 0x03 and 0x07
    Listed { count: u8 }, // 0x09; its addresses are the request's own bytes
    Bare { command: u8, at: u16, count: u8 }, // 0x14 to 0x19: no length byte
    NewEvents,
    AllEvents,
    Temperatures,
    Cells,
    SettingsOf { kind: Kind, count: u8 },
}

// What a command byte stands for; the fields of some are still to be read. Every byte stands for something, so an unknown one is a case.
#[derive(Clone, Copy)]
pub enum Command {
    Clear,
    Block,
    QuickBlock,
    AskList,
    Write(Form),
    Ask(Query),
    AskSettings,
    Unknown,
}

// The length of a command's request, and what it asks.
#[derive(Clone, Copy)]
pub struct Expected {
    pub length: usize,
    pub command: Command,
}

// What a whole request asks.
#[derive(Clone, Copy)]
pub enum Request {
    ClearEvents,
    ClearStatistics,
    Write { form: Form, count: u8 },
    Read(Query),
}

impl Command {
    fn is_unknown(self) -> bool
        ensures { result ≡ is_unknown self }
    {
        match self {
            Command::Unknown => true,
            _ => false,
        }
    }
}

impl Query {
    // The command byte that it came with.
    #[tactic(auto, unfolding(crate::specs::Requests::command_of))]
    pub fn command(self) -> u8
        ensures { result ≡ command_of self }
    {
        match self {
            Query::Registers {
                command,
                at: _,
                count: _,
            } => command,
            Query::Listed { count: _ } => 0x09,
            Query::Bare {
                command,
                at: _,
                count: _,
            } => command,
            Query::NewEvents => 0x11,
            Query::AllEvents => 0x12,
            Query::Temperatures => 0x1B,
            Query::Cells => 0x1C,
            Query::SettingsOf { kind: _, count: _ } => 0x1D,
        }
    }

    // 0x14 to 0x19 have no length byte.
    #[tactic(auto, unfolding(crate::specs::Requests::has_length))]
    pub fn has_length(self) -> bool
        ensures { result ≡ has_length self }
    {
        match self {
            Query::Bare {
                command: _,
                at: _,
                count: _,
            } => false,
            _ => true,
        }
    }

    // Registers by 0x03 go high byte first.
    #[tactic(auto, unfolding(crate::specs::Requests::high_first))]
    pub fn high_first(self) -> bool
        ensures { result ≡ high_first self }
    {
        match self {
            Query::Registers {
                command,
                at: _,
                count: _,
            } => command == 0x03,
            _ => false,
        }
    }

    // 0x11 marks what it sends; 0x12 marks nothing.
    #[tactic(auto, unfolding(crate::specs::Requests::marks))]
    pub fn marks(self) -> bool
        ensures { result ≡ marks self }
    {
        match self {
            Query::NewEvents => true,
            _ => false,
        }
    }

    // How many words the reply has, where so many events are new, so many kept, and there are so many cells.
    #[tactic(auto, unfolding(crate::specs::Requests::word_count))]
    pub fn word_count(self, new: u8, kept: u8, cells: u8) -> u16
        ensures { result ≡ word_count self new kept cells }
    {
        match self {
            Query::Registers {
                command: _,
                at: _,
                count,
            } => u16::from(count),
            Query::Listed { count } => 2 * u16::from(count),
            Query::Bare {
                command: _,
                at: _,
                count,
            } => u16::from(count),
            Query::NewEvents => 2 + 2 * u16::from(new),
            Query::AllEvents => 2 + 2 * u16::from(kept),
            Query::Temperatures => 3,
            Query::Cells => u16::from(cells),
            Query::SettingsOf { kind: _, count } => u16::from(count),
        }
    }
}

// A whole request, of any bytes.
#[tactic(auto, unfolding(refusals::specs::Refusals::first, crate::specs::Requests::request_of))]
pub fn parsed(bytes: &[u8]) -> Result<Request, Refusal>
    ensures { result ≡ request_of bytes.now }
{
    if is_foreign(bytes) {
        return Err(Refusal::Foreign);
    }
    if is_damaged(bytes) {
        return Err(Refusal::Damaged);
    }
    let expected = expected_in(bytes);
    let command = expected.command;
    if command.is_unknown() {
        return Err(Refusal::UnknownCommand);
    }
    if is_wrong_length(bytes, expected.length) {
        return Err(Refusal::WrongLength);
    }
    fields_of(command, bytes).ok_or(Refusal::WrongField)
}

// Under 4 bytes, or the first is not 0xAA.
fn is_foreign(bytes: &[u8]) -> bool
    ensures { result ≡ foreign bytes.now }
{
    (bytes.len() < 4) | (byte_at(bytes, 0) != 0xAA)
}

// The last two bytes are not the CRC of the rest.
fn is_damaged(bytes: &[u8]) -> bool
    ensures { result ≡ damaged bytes.now }
{
    let end = bytes.len().saturating_sub(2);
    crc::crc(&bytes[..end]) != low_first_16(bytes, end)
}

// The raw line takes as many bytes for it; 0x10 has 9+2·RL, whatever its PL.
fn is_wrong_length(bytes: &[u8], taken: usize) -> bool
    ensures { result ≡ wrong_length_by taken bytes.now }
{
    bytes.len() != right_length(byte_at(bytes, 1), byte_at(bytes, 5), taken)
}

fn right_length(command: u8, rl: u8, taken: usize) -> usize
    ensures { result ≡ right_length command rl taken }
{
    if command == 0x10 {
        9 + 2 * usize::from(rl)
    } else {
        taken
    }
}

// The length of the request that these bytes begin; it is more than there is until the byte that decides it has come.
#[tactic(auto, unfolding(crate::specs::Requests::length_of))]
pub fn length_of(bytes: &[u8]) -> usize
    ensures { (result ≡ length_of bytes.now) × (result ≤ 264) }
{
    expected_in(bytes).length
}

// The i-th address of a list.
#[tactic(auto, unfolding(crate::specs::Requests::address_at))]
pub fn address_at(bytes: &[u8], i: u16) -> u16
    ensures { result ≡ address_at bytes.now i }
{
    low_first_16(bytes, 3 + 2 * usize::from(i))
}

fn expected_in(bytes: &[u8]) -> Expected
    ensures { (result ≡ expected_in bytes.now) × (result.length ≤ 264) }
{
    expected_of(byte_at(bytes, 1), byte_at(bytes, 2), byte_at(bytes, 6))
}

// The command byte decides the length and the meaning; PL is the third byte, or the seventh.
#[tactic(auto, unfolding(crate::specs::Requests::expected_of))]
fn expected_of(command: u8, third: u8, seventh: u8) -> Expected
    ensures { result ≡ expected_of command third seventh }
{
    match command {
        0x02 => expect(5, Command::Clear),
        0x03 => expect(8, Command::Block),
        0x07 => expect(7, Command::QuickBlock),
        0x09 => expect(5 + usize::from(third), Command::AskList),
        0x0B => expect(5 + usize::from(third), Command::Write(Form::Block)),
        0x0D => expect(5 + usize::from(third), Command::Write(Form::List)),
        0x10 => expect(9 + usize::from(seventh), Command::Write(Form::Modbus)),
        0x11 => expect(4, Command::Ask(Query::NewEvents)),
        0x12 => expect(4, Command::Ask(Query::AllEvents)),
        0x14 => expect(4, bare(0x14, 36, 2)),
        0x15 => expect(4, bare(0x15, 38, 2)),
        0x16 => expect(4, bare(0x16, 41, 1)),
        0x17 => expect(4, bare(0x17, 40, 1)),
        0x18 => expect(4, bare(0x18, 50, 1)),
        0x19 => expect(4, bare(0x19, 32, 2)),
        0x1B => expect(4, Command::Ask(Query::Temperatures)),
        0x1C => expect(4, Command::Ask(Query::Cells)),
        0x1D => expect(7, Command::AskSettings),
        _ => expect(4, Command::Unknown),
    }
}

// What a request asks by its fields; none where one of them is against its rule.
#[tactic(auto, unfolding(crate::specs::Requests::fields_of))]
fn fields_of(command: Command, bytes: &[u8]) -> Option<Request>
    ensures { result ≡ fields_of command bytes.now }
{
    match command {
        Command::Clear => clear(byte_at(bytes, 2)),
        Command::Block => block(
            0x03,
            high_first_16(bytes, 2),
            byte_at(bytes, 4),
            byte_at(bytes, 5),
        ),
        Command::QuickBlock => block(0x07, low_first_16(bytes, 3), 0, byte_at(bytes, 2)),
        Command::AskList => list(byte_at(bytes, 2), bytes),
        Command::Write(form) => write(form, bytes, writes::count_of(form, bytes)),
        Command::Ask(query) => Some(Request::Read(query)),
        Command::AskSettings => settings_of(
            byte_at(bytes, 2),
            byte_at(bytes, 3),
            byte_at(bytes, 4),
        ),
        Command::Unknown => None,
    }
}

fn clear(option: u8) -> Option<Request>
    ensures { result ≡ clear_fields option }
{
    match option {
        1 => Some(Request::ClearEvents),
        2 => Some(Request::ClearStatistics),
        _ => None,
    }
}

fn block(command: u8, at: u16, padding: u8, rl: u8) -> Option<Request>
    ensures { result ≡ block_fields command at padding rl }
{
    let good = (padding == 0) & ((1 <= rl) & (rl <= 127)) & is_in_one_range(at, rl);
    good.then_some(Request::Read(Query::Registers {
        command,
        at,
        count: rl,
    }))
}

fn list(pl: u8, bytes: &[u8]) -> Option<Request>
    ensures { result ≡ list_fields pl bytes.now }
{
    let count = pl / 2;
    let good = (pl == 2 * count) & ((1 <= count) & (count <= 63)) & are_all_shown(bytes, count);
    good.then_some(Request::Read(Query::Listed { count }))
}

// Each of the first addresses of a list lies in one of the ranges.
fn are_all_shown(bytes: &[u8], count: u8) -> bool
    ensures { result ≡ all_shown bytes.now count }
{
    let mut good = true;
    for i in 0..u16::from(count) {
        good = good & is_in_one_range(address_at(bytes, i), 1);
    }
    good
}

fn is_in_one_range(at: u16, rl: u8) -> bool
    ensures { result ≡ in_one_range at rl }
{
    let first = u32::from(at);
    let end = first + u32::from(rl);
    (end <= 56) | ((100 <= first) & (end <= 118)) | ((300 <= first) & (end <= 400))
}

fn write(form: Form, bytes: &[u8], count: u8) -> Option<Request>
    ensures { result ≡ write_fields form bytes.now count }
{
    let good = writes::keeps_rules(form, bytes, count);
    good.then_some(Request::Write { form, count })
}

fn settings_of(option: u8, padding: u8, rl: u8) -> Option<Request>
    ensures { result ≡ settings_fields option padding rl }
{
    let good = ((1 <= option) & (option <= 4)) & (padding == 0) & ((1 <= rl) & (rl <= 100));
    let kind = kind_of(option);
    good.then_some(Request::Read(Query::SettingsOf { kind, count: rl }))
}

#[tactic(auto, unfolding(crate::specs::Requests::kind_of))]
fn kind_of(option: u8) -> Kind
    ensures { result ≡ kind_of option }
{
    match option {
        1 => Kind::Minimum,
        2 => Kind::Maximum,
        3 => Kind::Default,
        _ => Kind::Current,
    }
}

fn expect(length: usize, command: Command) -> Expected
    ensures { result ≡ expect length command }
{
    Expected { length, command }
}

fn bare(command: u8, at: u16, count: u8) -> Command
    ensures { result ≡ Command.Ask (Query.Bare command at count) }
{
    Command::Ask(Query::Bare { command, at, count })
}
