// Why a command is refused.
ghost use Rattle.std.specs.Prelude.{◌≡◌};
ghost use Rattle.dict_catalogue.specs.Refusals.{command_refusal_number, command_refusal_name, command_refusal_text};

use std::alloc::AllocError;
use thiserror::Error;

/// The test of a command that failed.
#[derive(Clone, Copy, Debug, PartialEq, Eq)]
pub enum CommandRefusal {
    /// The name isn't 1 to 32 of `a-z 0-9 _ -` beginning with `a-z`.
    BadName,
    /// No item has the name.
    Unknown,
    /// The item is virtual.
    IsVirtual,
    /// The item has no former edition.
    NoFormer,
    /// A virtual item lists the name.
    Listed,
    /// The name is a new one where 64 items stand, or 9,223,372,036,854,775,807 commands were accepted.
    CatalogueFull,
    /// No regular item has the member's name.
    BadMember,
    /// An earlier member is equal.
    MemberTwice,
    /// There aren't 1 to 64 members.
    MemberCount,
    /// The title isn't 1 to 200 octets, or has a control character, or a blank at an end.
    BadTitle,
    /// The place is not below the number of items.
    BadPlace,
    /// The request's id isn't 1 to 64 of `A-Z a-z 0-9 -`.
    BadRequestId,
    /// The item is regular, and was to be put as a virtual one.
    IsRegular,
}

impl CommandRefusal {
    // What users see of the refusal: its number, 20 to 32, and its name.
    fn text(self) -> (u8, &'static str)
        ensures number { result.0 ≡ (command_refusal_text self).number }
        ensures name { result.1.now ≡ (command_refusal_text self).name }
    {
        match self {
            CommandRefusal::BadName => (20, "BadName"),
            CommandRefusal::Unknown => (21, "Unknown"),
            CommandRefusal::IsVirtual => (22, "IsVirtual"),
            CommandRefusal::NoFormer => (23, "NoFormer"),
            CommandRefusal::Listed => (24, "Listed"),
            CommandRefusal::CatalogueFull => (25, "CatalogueFull"),
            CommandRefusal::BadMember => (26, "BadMember"),
            CommandRefusal::MemberTwice => (27, "MemberTwice"),
            CommandRefusal::MemberCount => (28, "MemberCount"),
            CommandRefusal::BadTitle => (29, "BadTitle"),
            CommandRefusal::BadPlace => (30, "BadPlace"),
            CommandRefusal::BadRequestId => (31, "BadRequestId"),
            CommandRefusal::IsRegular => (32, "IsRegular"),
        }
    }

    /// The refusal's number, as users see it: 20 to 32.
    pub fn number(self) -> u8
        ensures { result ≡ command_refusal_number self }
    {
        self.text().0
    }

    /// The refusal's name, as users see it.
    pub fn name(self) -> &'static str
        ensures { result.now ≡ command_refusal_name self }
    {
        self.text().1
    }
}

/// Why there is no plan for a command.
#[derive(Clone, Copy, Debug, PartialEq, Eq, Error)]
pub enum PlanFault {
    /// The first of the command's tests that failed.
    #[error("the command is refused")]
    Refused(CommandRefusal),
    /// A growth was refused.
    #[error("out of memory")]
    Memory,
}

impl From<AllocError> for PlanFault {
    ghost use Rattle.dict_catalogue.specs.declared.fault.PlanFault.TheVariants.{Memory};

    ghost from_gives = { λ _ fault. fault ≡ Memory };

    fn from(_: AllocError) -> Self {
        PlanFault::Memory
    }
}
