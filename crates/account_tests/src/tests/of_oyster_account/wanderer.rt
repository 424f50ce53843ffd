//! A generator of a card's acts: the same ones at each run.

use oyster_account::Act;

/// The seconds between two acts. Some are the limits of legs and changes, or a second beside them.
const STEPS: [u32; 20] = [
    0, 1, 59, 60, 61, 300, 599, 600, 601, 899, 900, 901, 1500, 2999, 3000, 3001, 5399, 5400, 5401,
    40_000,
];

/// The moments at which the cards begin: before the morning peak and before the evening peak of a
/// Monday, and before the clock goes back over 04:30.
const STARTS: [u32; 4] = [1_736_143_200, 1_736_178_000, 1_736_235_000, 1_761_447_600];

/// The pence of the top-ups.
const AMOUNTS: [u32; 8] = [1, 500, 2000, 3000, 5000, 29_000, 0, 50_001];

/// Where the generator is.
#[derive(Drop)]
pub struct Wanderer {
    seed: u32,
    card: u32,
    moment: u32,
    verdicts: u32,
}

impl Wanderer {
    /// A generator at its beginning.
    pub fn new() -> Wanderer {
        Wanderer {
            seed: 20_250_106,
            card: 0,
            moment: 1_736_143_200,
            verdicts: 0,
        }
    }

    /// A number below another.
    fn below(&mut self, limit: usize) -> usize {
        self.seed = self
            .seed
            .wrapping_mul(1_664_525)
            .wrapping_add(1_013_904_223);
        let high = (self.seed / 65_536) as usize;
        high.checked_rem(limit).unwrap_or(0)
    }

    /// One of these.
    fn any(&mut self, values: &[u32]) -> u32 {
        let place = self.below(values.len());
        values.get(place).copied().unwrap_or(0)
    }

    /// Goes on with another card.
    pub fn turn_to_another_card(&mut self) {
        self.card = self.card.wrapping_add(1);
        self.moment = self.any(&STARTS);
    }

    /// The next act of a card, in the place `touch`. Its moment may lie before that of the last
    /// one. A card is issued with its second act at the latest.
    pub fn next(&mut self, touch: u32) -> Act {
        let step = self.any(&STEPS);
        self.moment = if self.below(16) == 0 {
            self.moment.saturating_sub(step)
        } else {
            self.moment.saturating_add(step)
        };
        let moment = self.moment;
        let station = match self.below(40) {
            0 => 99,
            _ => 1u16.saturating_add((self.below(8) & 7) as u16),
        };
        if touch == 1 {
            return Act::Issue { moment };
        }
        match self.below(20) {
            0..8 => Act::Enter { station, moment },
            8..15 => Act::Leave { station, moment },
            15..18 => Act::TopUp {
                pence: self.any(&AMOUNTS),
                moment,
            },
            _ => Act::Issue { moment },
        }
    }

    /// Notes a verdict that was given.
    pub fn note(&mut self, verdict: u8) {
        self.verdicts |= 1u32.checked_shl(u32::from(verdict)).unwrap_or(0);
    }

    /// Whether a verdict was noted.
    pub fn has_noted(&self, verdict: u8) -> bool {
        self.verdicts & 1u32.checked_shl(u32::from(verdict)).unwrap_or(0) != 0
    }
}
