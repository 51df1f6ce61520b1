// The names of the calls, and which of them have a D, which may have flags.
ghost use Rattle.std.specs.Prelude.{◌≡◌};
ghost use Rattle.calls.specs.Names.{choice_word, word_of, has_d, flags_fit};

use hearing::flags::Flags;
use programs::bytes::same;
use words::choice_words::ChoiceWord;
use words::table_words::TableWord;

// What a line's first word asks for.
#[derive(Clone, Copy)]
pub enum Word {
    Check,
    Scan,
    Independent,
    Choice(ChoiceWord),
    Table(TableWord),
    Side,
    P2r,
    R2p,
    Unknown,
}

// Says which call a name asks for. (The names are compared one by one, in two functions: a `match` on them leaves a goal for
// each of some sixty ways through their bytes, and all twelve in one are past what the check finds alone.)
#[tactic(auto, unfolding(crate::specs::Names::word_of, crate::specs::Names::table_word))]
pub fn word_of(name: &[u8]) -> Word
    ensures { result ≡ word_of name.now }
{
    if same(name, b"check") {
        return Word::Check;
    }
    if same(name, b"scan") {
        return Word::Scan;
    }
    if same(name, b"independent") {
        return Word::Independent;
    }
    if same(name, b"build") {
        return Word::Table(TableWord::Build);
    }
    if same(name, b"lookup") {
        return Word::Table(TableWord::Lookup);
    }
    if same(name, b"audit") {
        return Word::Table(TableWord::Audit);
    }
    if same(name, b"report") {
        return Word::Table(TableWord::Report);
    }
    choice_word(name)
}

// Says which of the calls that are left a name asks for: those of a choice of partitions, and of ranges and prefixes.
#[tactic(auto, unfolding(crate::specs::Names::choice_word, crate::specs::Names::prefix_word))]
fn choice_word(name: &[u8]) -> Word
    ensures { result ≡ choice_word name.now }
{
    if same(name, b"choose") {
        return Word::Choice(ChoiceWord::Choose);
    }
    if same(name, b"layout") {
        return Word::Choice(ChoiceWord::Layout);
    }
    if same(name, b"side") {
        return Word::Side;
    }
    if same(name, b"p2r") {
        return Word::P2r;
    }
    if same(name, b"r2p") {
        return Word::R2p;
    }
    Word::Unknown
}

// Says whether a call's first number is D.
fn has_d(word: Word) -> bool
    ensures { result ≡ has_d word }
{
    !matches!(word, Word::P2r | Word::R2p | Word::Unknown)
}

// Says whether a call may have such flags: eight flags for D, or none.
pub fn flags_fit(word: Word, flags: Flags) -> bool
    ensures { result ≡ flags_fit word flags }
{
    match flags {
        Flags::Without => true,
        Flags::Read { .. } => has_d(word),
        Flags::Bad => false,
    }
}
