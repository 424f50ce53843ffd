//! The kinds of request, as a door's file names them.
ghost use Rattle.std.specs.Prelude.{◌≡◌};
ghost use Rattle.door_file.specs.Keys.{word_of};

/// A kind of request.
#[derive(Clone, Copy, Debug, PartialEq, Eq)]
pub enum Kind {
    /// A touch in.
    Enter,
    /// A touch out.
    Leave,
    /// A top-up.
    TopUp,
    /// The issue of a card.
    Issue,
    /// A revision of fares.
    Revise,
    /// An enquiry about a card.
    Enquire,
}

/// All kinds, in their order.
pub const KINDS: [Kind; 6] = [
    Kind::Enter,
    Kind::Leave,
    Kind::TopUp,
    Kind::Issue,
    Kind::Revise,
    Kind::Enquire,
];

impl Kind {
    /// The word that is in the file for the kind.
    pub fn word(self) -> &'static str
        ensures { result.now ≡ word_of self }
    {
        match self {
            Kind::Enter => "in",
            Kind::Leave => "out",
            Kind::TopUp => "top-up",
            Kind::Issue => "issue",
            Kind::Revise => "revise",
            Kind::Enquire => "enquiry",
        }
    }
}
