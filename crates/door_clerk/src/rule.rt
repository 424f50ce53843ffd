//! What the gates of one name may do.
ghost use Rattle.std.specs.Prelude.{◌≡◌, ◌&&◌, nat_eq, true, false, IfOk, IfErr, OnOk};
ghost use Rattle.std.specs.Bool.{OnTrue};
ghost use Rattle.door_clerk.specs.declared.reading.Standing.{Standing};
ghost use Rattle.door_clerk.specs.declared.refusal.DoorRefusal.TheVariants as refusals;
ghost use Rattle.door_clerk.specs.Rule.{allows_act, allows_gate, allows_kind, is_in_time};
ghost use Rattle.door_clerk.specs.Rule.{is_within, terms_of};
ghost use Rattle.door_clerk.specs.Allowed.{IsBarredFor, IsFitting, IsNamed, IsUnfitFor};
ghost use Rattle.door_clerk.specs.Bucket.{bucket_after, has_token};

use crate::bucket::Bucket;
use crate::reading::Standing;
use crate::refusal::DoorRefusal;
use gate_session::Request;
use oyster_account::{Act, Touch};

/// A range of gate numbers, both ends included. It is empty where the first is above the last.
#[derive(Clone, Copy, Debug, PartialEq, Eq)]
pub struct GateRange {
    /// The least number.
    pub first: u16,
    /// The greatest number.
    pub last: u16,
}

impl GateRange {
    /// Whether a gate number is in the range.
    pub fn contains(&self, gate: u16) -> bool
        ensures { result ≡ is_within self.now gate }
    {
        self.first <= gate && gate <= self.last
    }
}

/// The kinds of request that may be sent.
#[derive(Clone, Copy, Debug, PartialEq, Eq)]
pub struct Kinds {
    /// Touches in.
    pub enter: bool,
    /// Touches out.
    pub leave: bool,
    /// Top-ups.
    pub top_up: bool,
    /// Issues of cards.
    pub issue: bool,
    /// Revisions of fares.
    pub revise: bool,
    /// Enquiries about a card.
    pub enquire: bool,
}

impl Kinds {
    /// Whether requests of this kind are allowed.
    pub fn allow(&self, request: &Request) -> bool
        ensures { result ≡ allows_kind self.now request.now }
    {
        match request {
            Request::Touch(touch) => self.allow_act(&touch.act),
            Request::Enquire(_) => self.enquire,
        }
    }

    /// Whether touches of this kind are allowed.
    pub fn allow_act(&self, act: &Act) -> bool
        ensures { result ≡ allows_act self.now act.now }
    {
        match act {
            Act::Enter { .. } => self.enter,
            Act::Leave { .. } => self.leave,
            Act::TopUp { .. } => self.top_up,
            Act::Issue { .. } => self.issue,
            Act::Revise { .. } => self.revise,
        }
    }
}

/// How fast touches may come.
#[derive(Clone, Copy, Debug, PartialEq, Eq)]
pub struct Rate {
    /// How many touches a second, for long.
    pub touches: u32,
    /// How many touches at once, after a rest. With 0 no touch is allowed at all.
    pub burst: u32,
}

/// What the gates of one name may do.
#[derive(Debug, Drop)]
pub struct Rule {
    /// The gate numbers that a touch may have. An enquiry has none.
    pub gates: Vec<GateRange>,
    /// The kinds of request that may be sent.
    pub kinds: Kinds,
    /// By how many seconds the moment of a new touch may be ahead of the server's clock. Nothing is
    /// asked of the past, since a gate may have been cut off for long, nor of a repeat, since the
    /// history has it. `None` allows any moment.
    pub ahead: Option<u32>,
    /// How fast touches may come, new ones and repeats. Enquiries don't count. `None` sets no
    /// limit.
    pub rate: Option<Rate>,
    /// How many of the journal's last touches are reserved for others: a new touch has to leave so
    /// many. With 0 the journal may be filled, and the clerk itself answers for a full one.
    pub reserved: u32,
}

impl Rule {
    /// Whether a touch may have this gate number.
    pub fn allows_gate(&self, gate: u16) -> bool
        ensures { result ≡ allows_gate self.now.gates.items gate }
    {
        self.gates.iter().any(|range| range.contains(gate))
    }

    /// Whether a touch is of an allowed kind and gate number. What else is read doesn't count.
    ///
    /// `Kind` comes first, and then `Gate`.
    pub fn check_name(&self, touch: &Touch) -> Result<(), DoorRefusal>
        ensures ok { OnOk result (IsNamed (terms_of self.now) touch.now) }
        ensures err { IfErr result (IsBarredFor (terms_of self.now) touch.now) }
    {
        if !self.kinds.allow_act(&touch.act) {
            return Err(DoorRefusal::Kind);
        }
        if !self.allows_gate(touch.gate) {
            return Err(DoorRefusal::Gate);
        }
        Ok(())
    }

    /// Whether a touch may come at so many ticks, by a bucket as it is. The value is the bucket
    /// after it.
    ///
    /// The only fault is `Rate`.
    pub fn check_rate(&self, bucket: &Bucket, ticks: u64) -> Result<Bucket, DoorRefusal>
        ensures ok { OnOk result (has_token self.now.rate bucket.now ticks ≡ true) }
        ensures bucket { IfOk result
            (λ after. after ≡ bucket_after self.now.rate bucket.now ticks) }
        ensures err { IfErr result (λ refusal. (refusal ≡ refusals.Rate)
            × (has_token self.now.rate bucket.now ticks ≡ false)) }
    {
        if bucket.has_token(self.rate, ticks) {
            Ok(bucket.after(self.rate, ticks))
        } else {
            Err(DoorRefusal::Rate)
        }
    }

    /// Whether a touch of this moment is allowed as it stands, when the server's clock has so many
    /// seconds.
    ///
    /// `Ahead` comes first, and then `Reserve`.
    pub fn check_standing(
        &self,
        moment: u32,
        seconds: u64,
        standing: Standing,
    ) -> Result<(), DoorRefusal>
        ensures ok { OnOk result (IsFitting (terms_of self.now) moment seconds standing) }
        ensures err { IfErr result (IsUnfitFor (terms_of self.now) moment seconds standing) }
    {
        let Standing::New { room } = standing else {
            return Ok(());
        };
        if !self.is_in_time(moment, seconds) {
            return Err(DoorRefusal::Ahead);
        }
        if self.reserved > 0 && room <= self.reserved {
            return Err(DoorRefusal::Reserve);
        }
        Ok(())
    }

    /// Whether a touch of this moment is allowed however it stands.
    pub fn is_fitting(&self, moment: u32, seconds: u64) -> bool
        ensures value { result ≡ (nat_eq self.now.reserved 0
            && is_in_time self.now.ahead moment seconds) }
        ensures fits { OnTrue result ((standing : Standing) →
            IsFitting (terms_of self.now) moment seconds standing) }
    {
        self.reserved == 0 && self.is_in_time(moment, seconds)
    }

    /// Whether a moment is no further ahead of the server's clock than is allowed.
    fn is_in_time(&self, moment: u32, seconds: u64) -> bool
        ensures { result ≡ is_in_time self.now.ahead moment seconds }
    {
        match self.ahead {
            Some(ahead) => u64::from(moment) <= seconds.saturating_add(u64::from(ahead)),
            None => true,
        }
    }
}
