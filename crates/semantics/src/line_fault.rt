//! Why a line gives no record.

/// What is wrong with a line. Where several of these are, the first in this order is the line's
/// fault.
///
/// Example: under the column `cents:int` it is `NoJson` of the line `{"cents":5`, and `BadValue(0)`
/// of the line `{"cents":"5"}`.
#[derive(Clone, Copy, Debug, PartialEq, Eq)]
pub enum LineFault {
    /// The line is longer than 1,048,576 bytes, its line feed not counted.
    TooLong,
    /// The line is no JSON text (RFC 8259, section 2), or not UTF-8, or one of the JSON texts that
    /// are not read: with objects and arrays more than 127 deep in one another, a number that is
    /// beyond all floating-point numbers of 64 bits, or one half of a surrogate pair alone.
    NoJson,
    /// The JSON value is not an object (RFC 8259, section 4).
    NoObject,
    /// The column at this place of the schema, from 0, is the first whose member is of a kind that
    /// it does not take: as a string, `1.0` or `-0` under `int`.
    BadValue(usize),
}

/// Why the reading of a line ended without a record.
///
/// Example: of the line `[1]` it is `Fault(LineFault::NoObject)`, or `Memory` where there was none.
#[derive(Clone, Copy, Debug, PartialEq, Eq)]
pub enum LineRefusal {
    /// The line has this fault, and none that is before it in the order of faults.
    Fault(LineFault),
    /// There was no memory for the line's record, so nothing is known of its faults.
    Memory,
}
