//! Why bytes are no stored graph.
ghost use Rattle.std.specs.Prelude.{◌≡◌};
ghost use Rattle.fcg_partial.specs.Fault.{fault};

use fcg_grammar::ReadError;

/// A rule that bytes break: of stored graphs, and of the records of a keeper that hold them. A stored graph breaks only
/// those up to `Unused`.
#[derive(Clone, Copy, Debug, PartialEq, Eq)]
pub enum RecordRule {
    /// The first four bytes aren't `FCGR`.
    Magic,
    /// The version isn't 1.
    Version,
    /// A number or a string of bytes passes the end of the bytes.
    Cut,
    /// A name or a reference isn't above the one before it.
    Order,
    /// A number of a name or of a reference is past its table.
    Index,
    /// The byte of a site's kind is no kind, or that of an interface is neither 0 nor 1.
    Kind,
    /// An earlier method of the type has the same name and descriptor.
    DoubleMethod,
    /// The methods of a type have more than 1,000,000 sites.
    ManySites,
    /// Bytes stand after the last type.
    Trailing,
    /// A name or a reference isn't used.
    Unused,
    /// The text of a record's coordinate is none.
    Coordinate,
    /// An earlier record has the request number.
    Number,
    /// The coordinate of a withdrawal isn't live.
    Withdraw,
    /// There are more than 1,000,000 records, or more than 1,073,741,824 bytes of records in sum, or a record's graph has
    /// more than 67,108,864 bytes.
    Limit,
    /// The kind of a record is neither that of an import nor that of a withdrawal.
    Command,
}

/// The first rule that is broken, in the order in which a stored graph is read.
#[derive(Clone, Copy, Debug, PartialEq, Eq)]
pub struct RecordFault {
    /// The place of the item that breaks the rule, in bytes from the start: of a name that of its length, and of a
    /// doubled method that of its row. A place that is too large is given as the last value.
    pub offset: u32,
    pub rule: RecordRule,
}

/// The fault at a place.
pub(crate) fn fault_at(at: usize, rule: RecordRule) -> RecordFault
    ensures { result ≡ fault at rule }
{
    RecordFault {
        offset: u32::try_from(at).unwrap_or(u32::MAX),
        rule,
    }
}

impl From<RecordFault> for ReadError<RecordFault> {
    ghost use Rattle.fcg_grammar.specs.declared.error.ReadError.TheVariants as errors;

    ghost from_gives = { λ f e. e ≡ errors.Fault f };

    fn from(fault: RecordFault) -> ReadError<RecordFault> {
        ReadError::Fault(fault)
    }
}

impl From<RecordRule> for ReadError<RecordRule> {
    ghost use Rattle.fcg_grammar.specs.declared.error.ReadError.TheVariants as errors;

    ghost from_gives = { λ rule e. e ≡ errors.Fault rule };

    fn from(rule: RecordRule) -> ReadError<RecordRule> {
        ReadError::Fault(rule)
    }
}
