//! A line that asks for a touch: `issue 3`, `in 3 17`, `out 3 21` and `top-up 3 1000`, each with
//! the card first; and `at 1736149800` in front of it, where its moment isn't the clock's.
ghost use Rattle.std.specs.Prelude.{◌≡◌, ℕ, List, Some, IfSome, IsSomeAnd};
ghost use Rattle.oyster_account.specs.declared.touch.Act.{Act};
ghost use Rattle.oyster_account.specs.declared.touch.Act.TheVariants.{Enter, Leave, TopUp, Issue};
ghost use Rattle.oyster_account.specs.Touch.{moment_of};
ghost use Rattle.gate_client.specs.declared.asking.Asked.{Asked};
ghost use Rattle.gate_client.specs.Asking.{IsNumber, Begins, HasPair, word_of, SaysBehind};
ghost use Rattle.gate_client.specs.Asking.{SaysAt, Asks};

use oyster_account::Act;

/// What a line asks for.
#[derive(Clone, Copy, Debug, PartialEq, Eq)]
pub struct Asked {
    /// The number of the card.
    pub card: u32,
    /// What happens.
    pub act: Act,
}

/// What a line asks for, where it asks for a touch, and the clock is at this moment, in seconds
/// since 1970-01-01 00:00:00 UTC. The line is without its line feed.
pub fn asked_by(line: &str, now: u32) -> Option<Asked>
    ensures some { IfSome result (λ asked. Asks now line.now asked.card asked.act) }

    // It is the only one, and no line that asks for a touch is refused.
    ensures only { (card : ℕ) (act : Act) → Asks now line.now card act
        → result ≡ Some (record { card = card; act = act }) }
{
    let (word, rest) = line.split_once(' ')?;
    if word == "at" {
        let (moment, said) = number_before(rest)?;
        said_by(said, moment)
    } else {
        said_by(line, now)
    }
}

/// What a text asks for that has no moment in front of it.
fn said_by(text: &str, moment: u32) -> Option<Asked>
    ensures some { IfSome result (λ asked. SaysAt moment text.now asked.card asked.act) }
    ensures only { (card : ℕ) (act : Act) → SaysAt moment text.now card act
        → result ≡ Some (record { card = card; act = act }) }
{
    let (word, rest) = text.split_once(' ')?;
    act_by(word, rest, moment)
}

/// What a word asks for with what stands behind it.
fn act_by(word: &str, rest: &str, moment: u32) -> Option<Asked>
    ensures word { IfSome result (λ asked. word.now ≡ word_of asked.act) }
    ensures some { IfSome result (λ asked. SaysBehind rest.now asked.card asked.act) }
    ensures moment { IfSome result (λ asked. moment_of asked.act ≡ moment) }
    ensures only { (card : ℕ) (act : Act) → word.now ≡ word_of act → SaysBehind rest.now card act
        → moment_of act ≡ moment → result ≡ Some (record { card = card; act = act }) }
{
    match word {
        "issue" => issue_of(rest, moment),
        "in" => enter_of(rest, moment),
        "out" => leave_of(rest, moment),
        "top-up" => top_up_of(rest, moment),
        _ => None,
    }
}

/// The issue of the card of this number.
fn issue_of(text: &str, moment: u32) -> Option<Asked>
    ensures some { IfSome result (λ asked. (asked.act ≡ Issue moment)
        × IsNumber 32 text.now asked.card) }
    ensures only { (card : ℕ) → IsNumber 32 text.now card
        → result ≡ Some (record { card = card; act = Issue moment }) }
{
    let card = number_in(text)?;
    let act = Act::Issue { moment };
    Some(Asked { card, act })
}

/// The touch in of this card at this station.
fn enter_of(text: &str, moment: u32) -> Option<Asked>
    ensures some { IfSome result (λ asked. (station : ℕ) × (asked.act ≡ Enter station moment)
        × HasPair text.now asked.card 16 station) }
    ensures only { (card station : ℕ) → HasPair text.now card 16 station
        → result ≡ Some (record { card = card; act = Enter station moment }) }
{
    let (card, station) = card_and_station(text)?;
    let act = Act::Enter { station, moment };
    Some(Asked { card, act })
}

/// The touch out of this card at this station.
fn leave_of(text: &str, moment: u32) -> Option<Asked>
    ensures some { IfSome result (λ asked. (station : ℕ) × (asked.act ≡ Leave station moment)
        × HasPair text.now asked.card 16 station) }
    ensures only { (card station : ℕ) → HasPair text.now card 16 station
        → result ≡ Some (record { card = card; act = Leave station moment }) }
{
    let (card, station) = card_and_station(text)?;
    let act = Act::Leave { station, moment };
    Some(Asked { card, act })
}

/// The top-up of this card by so many pence.
fn top_up_of(text: &str, moment: u32) -> Option<Asked>
    ensures some { IfSome result (λ asked. (pence : ℕ) × (asked.act ≡ TopUp pence moment)
        × HasPair text.now asked.card 32 pence) }
    ensures only { (card pence : ℕ) → HasPair text.now card 32 pence
        → result ≡ Some (record { card = card; act = TopUp pence moment }) }
{
    let (card, last) = number_before(text)?;
    let pence = number_in(last)?;
    let act = Act::TopUp { pence, moment };
    Some(Asked { card, act })
}

/// The numbers of a card and of a station.
fn card_and_station(text: &str) -> Option<(u32, u16)>
    ensures some { IfSome result (λ pair. HasPair text.now pair.0 16 pair.1) }
    ensures only { (card station : ℕ) → HasPair text.now card 16 station
        → result ≡ Some (card, station) }
{
    let (card, last) = number_before(text)?;
    let station = station_in(last)?;
    Some((card, station))
}

/// The number that a text begins with, and what stands behind the space.
fn number_before(text: &str) -> Option<(u32, &str)>
    ensures some { IfSome result (λ found. Begins text.now found.0 found.1.now) }
    ensures only { (n : ℕ) (rest : List ℕ) → Begins text.now n rest
        → IsSomeAnd result (λ found. (found.0 ≡ n) × (found.1.now ≡ rest)) }
{
    let (digits, rest) = text.split_once(' ')?;
    let number = number_in(digits)?;
    Some((number, rest))
}

/// The number that a text is, in decimal digits alone: a parser of numbers takes a sign as well.
pub(crate) fn number_in(text: &str) -> Option<u32>
    ensures some { IfSome result (IsNumber 32 text.now) }
    ensures only { (n : ℕ) → IsNumber 32 text.now n → result ≡ Some n }
{
    if text.starts_with('+') {
        return None;
    }
    text.parse::<u32>().ok()
}

/// The number of a station that a text is, in decimal digits alone.
fn station_in(text: &str) -> Option<u16>
    ensures some { IfSome result (IsNumber 16 text.now) }
    ensures only { (n : ℕ) → IsNumber 16 text.now n → result ≡ Some n }
{
    if text.starts_with('+') {
        return None;
    }
    text.parse::<u16>().ok()
}
