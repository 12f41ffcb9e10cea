//! Predicates whose names are resolved.

ghost use Rattle.std.specs.Prelude.{◌≡◌, map, true};
ghost use Rattle.std.specs.List.{list_all};
ghost use Rattle.values.specs.Datum.{data_of, datum_of};
ghost use Rattle.semantics.specs.Values.{is_null};
ghost use Rattle.semantics.specs.Conditions.{all_of, any_of, between_truth, known_truth, with_not, member_truth, value_truth};
ghost use Rattle.query_eval.specs.Meaning.{comparable, condition_truth, is_safe, is_there, is_truth_value, source_value};

use values::{Op, Truth, Value, compare};

/// Where the value of an operand comes from.
///
/// Example: under the columns `a:bool,q:int` the operand `q` is `OperandSource::Value(1)`, and the
/// operand 5 is `OperandSource::Literal(Value::Int(5))`.
#[derive(Drop)]
pub enum OperandSource {
    /// The value at this place, from 0.
    Value(usize),
    /// A value that is written in the query.
    Literal(Value),
}

/// A predicate whose operands are places of values, and literals. It is made of a predicate once,
/// so that no name is looked up for each record.
///
/// Example: under the columns `a:bool,q:int` the predicate `a` is `Holds(OperandSource::Value(0))`.
#[derive(Drop)]
pub enum Condition {
    /// `p OR q OR ..`
    Or(Vec<Condition>),
    /// `p AND q AND ..`
    And(Vec<Condition>),
    /// `NOT p`
    Not(Box<Condition>),
    /// `p IS TRUE`, ISO/IEC 9075-2 `<boolean test>`.
    Is {
        /// What is tested.
        part: Box<Condition>,
        /// Whether it is `IS NOT`.
        not: bool,
        /// The truth value that is asked for.
        truth: Truth,
    },
    /// `x = y`, ISO/IEC 9075-2 `<comparison predicate>`.
    Compare {
        /// The operand on the left.
        left: OperandSource,
        /// The operator.
        op: Op,
        /// The operand on the right.
        right: OperandSource,
    },
    /// `x BETWEEN y AND z`, ISO/IEC 9075-2 `<between predicate>`.
    Between {
        /// What is tested.
        operand: OperandSource,
        /// Whether it is `NOT BETWEEN`.
        not: bool,
        /// The lower end, included.
        low: OperandSource,
        /// The upper end, included.
        high: OperandSource,
    },
    /// `x IN (1, 2)`, ISO/IEC 9075-2 `<in predicate>`.
    In {
        /// What is tested.
        operand: OperandSource,
        /// Whether it is `NOT IN`.
        not: bool,
        /// The values.
        values: Vec<Value>,
    },
    /// `x IS NULL`, ISO/IEC 9075-2 `<null predicate>`.
    IsNull {
        /// What is tested.
        operand: OperandSource,
        /// Whether it is `IS NOT NULL`.
        not: bool,
    },
    /// A value that is itself a truth value, or NULL, which is Unknown.
    Holds(OperandSource),
}

impl OperandSource {
    ghost use Rattle.std.specs.Prelude.{◌≡◌, true};
    ghost use Rattle.values.specs.Datum.{data_of, datum_of};
    ghost use Rattle.query_eval.specs.Meaning.{is_there, source_value};

    /// The value.
    fn value<'a>(&'a self, values: &'a [Value]) -> &'a Value
        requires { is_there (data_of values.now) self.now ≡ true }
        ensures { datum_of result.now ≡ source_value (data_of values.now) self.now }
    {
        match self {
            OperandSource::Value(place) => &values[*place],
            OperandSource::Literal(value) => value,
        }
    }
}

/// A truth value, or with NOT its negation.
fn apply_not(not: bool, truth: Truth) -> Truth
    ensures { result ≡ with_not not truth }
{
    if not { truth.not() } else { truth }
}

/// The truth value of `value IS NULL`, which is never Unknown, ISO/IEC 9075-2 `<null predicate>`.
fn null_truth(value: &Value) -> Truth
    ensures { result ≡ known_truth (is_null (datum_of value.now)) }
{
    Truth::from(matches!(value, Value::Null))
}

/// The truth value of `value BETWEEN low AND high`, which is that of
/// `value >= low AND value <= high`, ISO/IEC 9075-2 `<between predicate>`. It asks that the value
/// and each end are of one type, or one of the two is NULL.
fn between_truth(value: &Value, low: &Value, high: &Value) -> Truth
    requires low { comparable (datum_of value.now) (datum_of low.now) ≡ true }
    requires high { comparable (datum_of value.now) (datum_of high.now) ≡ true }
    ensures { result ≡ between_truth (datum_of value.now) (datum_of low.now) (datum_of high.now) }
{
    compare(Op::Ge, value, low).and(compare(Op::Le, value, high))
}

/// The truth value of `value IN (..)`: True where one of the values is equal to it, else Unknown
/// where a comparison with one is, else False, ISO/IEC 9075-2 `<in predicate>`. It asks that the
/// value and each of the others are of one type, or one of the two is NULL.
fn member_truth(value: &Value, values: &[Value]) -> Truth
    requires { list_all (comparable (datum_of value.now)) (map datum_of values.now) ≡ true }
    ensures { result ≡ member_truth (datum_of value.now) (map datum_of values.now) }
{
    let mut found = Truth::False;
    for other in values {
        found = found.or(compare(Op::Eq, value, other));
        if found.is(Truth::True) {
            return found;
        }
    }
    found
}

/// The truth value that a value is; NULL is Unknown. It asks that the value is a truth value or
/// NULL.
#[tactic(auto, using(crate::proofs::Truths::value_truth_is))]
fn value_truth(value: &Value) -> Truth
    requires { is_truth_value (datum_of value.now) ≡ true }
    ensures { result ≡ value_truth (datum_of value.now) }
{
    match value {
        Value::Bool(holds) => Truth::from(*holds),
        Value::Null => Truth::Unknown,
        Value::Int(_) | Value::Text(_) => unreachable!(),
    }
}

impl Condition {
    ghost use Rattle.std.specs.Prelude.{◌≡◌, true};
    ghost use Rattle.values.specs.Datum.{data_of};
    ghost use Rattle.query_eval.specs.Meaning.{condition_truth, is_safe};

    /// What the condition is worth under these values. It takes no memory. It asks that there is a
    /// value at each of its places, that values which are compared are of one type, or one of the
    /// two is NULL, and that a value which stands alone is a truth value or NULL.
    ///
    /// Example: under the columns `a:bool,q:int` the condition of `a AND q > 2` is False for the
    /// values true and 1, and Unknown for true and NULL.
    #[cycle(truth)]
    pub fn truth(&self, values: &[Value]) -> Truth
        requires { is_safe self.now (data_of values.now) ≡ true }
        ensures { result ≡ condition_truth self.now (data_of values.now) }
    {
        match self {
            Condition::Or(parts) => any_truth(parts, values),
            Condition::And(parts) => all_truth(parts, values),
            Condition::Not(part) => part.truth(values).not(),
            Condition::Is { part, not, truth } => {
                apply_not(*not, Truth::from(part.truth(values).is(*truth)))
            }
            Condition::Compare { left, op, right } => {
                compare(*op, left.value(values), right.value(values))
            }
            Condition::Between {
                operand,
                not,
                low,
                high,
            } => apply_not(
                *not,
                between_truth(operand.value(values), low.value(values), high.value(values)),
            ),
            Condition::In {
                operand,
                not,
                values: others,
            } => apply_not(*not, member_truth(operand.value(values), others)),
            Condition::IsNull { operand, not } => apply_not(
                *not,
                null_truth(operand.value(values)),
            ),
            Condition::Holds(operand) => value_truth(operand.value(values)),
        }
    }
}

/// What `p OR q OR ..` is worth under these values.
#[cycle(truth)]
fn any_truth(parts: &[Condition], values: &[Value]) -> Truth
    requires { list_all (λ is_safe. is_safe (data_of values.now)) (map is_safe parts.now) ≡ true }
    ensures { result
        ≡ any_of (map (λ truth. truth (data_of values.now)) (map condition_truth parts.now)) }
{
    let mut found = Truth::False;
    for part in parts {
        found = found.or(part.truth(values));
        if found.is(Truth::True) {
            return found;
        }
    }
    found
}

/// What `p AND q AND ..` is worth under these values.
#[cycle(truth)]
fn all_truth(parts: &[Condition], values: &[Value]) -> Truth
    requires { list_all (λ is_safe. is_safe (data_of values.now)) (map is_safe parts.now) ≡ true }
    ensures { result
        ≡ all_of (map (λ truth. truth (data_of values.now)) (map condition_truth parts.now)) }
{
    let mut found = Truth::True;
    for part in parts {
        found = found.and(part.truth(values));
        if found.is(Truth::False) {
            return found;
        }
    }
    found
}
