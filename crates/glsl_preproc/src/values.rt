ghost use Rattle.std.specs.Prelude.{◌≡◌, ◌+ℤ◌, ◌-ℤ◌, None, Some, IfSome, pos, ◌*ℤ◌, ◌^◌, ◌<◌};
ghost use Rattle.glsl_preproc.specs.Values.{fitting, truth, shift_count, left_by, right_by, computed, applied, negated, complemented, inverted, single_operator, double_operator, operator_of, level_of, divided, remainder};

use crate::operators::Operator;

#[tactic(auto, using(crate::proofs::Fitting::some_fitting))]
fn product(a: i32, b: i32) -> Option<i32>
    ensures { result ≡ fitting (a *ℤ b) }
{
    a.checked_mul(b)
}

#[tactic(auto, using(crate::proofs::Fitting::some_fitting))]
fn sum(a: i32, b: i32) -> Option<i32>
    ensures { result ≡ fitting (a +ℤ b) }
{
    a.checked_add(b)
}

#[tactic(auto, using(crate::proofs::Fitting::some_fitting))]
fn difference(a: i32, b: i32) -> Option<i32>
    ensures { result ≡ fitting (a -ℤ b) }
{
    a.checked_sub(b)
}

/// The quotient toward 0, where there is one.
fn divided(a: i32, b: i32) -> Option<i32>
    ensures { result ≡ divided a b }
{
    if b == 0 { None } else { a.checked_div(b) }
}

/// What is left of a division toward 0, where the divisor is not 0.
fn remainder(a: i32, b: i32) -> Option<i32>
    ensures { result ≡ remainder a b }
{
    if b == 0 {
        None
    } else if b == -1 {
        Some(0)
    } else {
        Some(a % b)
    }
}

/// A shift count, which is a number from 0 to 31.
fn shift_count(b: i32) -> Option<u32>
    ensures count { result ≡ shift_count b }
    ensures small { IfSome result (λ n. n < 32) }
{
    if b < 0 {
        return None;
    }
    if b > 31 {
        return None;
    }
    Some(b as u32)
}

/// `a << n`, which is a * 2 ^ n.
fn shifted_left(a: i32, n: u32) -> Option<i32>
    requires { n < 32 }
    ensures { result ≡ fitting (a *ℤ pos (2 ^ n)) }
{
    let power = 1u32 << n;
    i32::try_from(i64::from(a) * i64::from(power)).ok()
}

/// `a << b`
fn left_by(a: i32, b: i32) -> Option<i32>
    ensures { result ≡ left_by a (shift_count b) }
{
    match shift_count(b) {
        None => None,
        Some(n) => shifted_left(a, n),
    }
}

/// `a >> b`, which keeps the sign.
fn right_by(a: i32, b: i32) -> Option<i32>
    ensures { result ≡ right_by a (shift_count b) }
{
    match shift_count(b) {
        None => None,
        Some(n) => Some(a >> n),
    }
}

fn truth(b: bool) -> Option<i32>
    ensures { result ≡ truth b }
{
    Some(i32::from(b))
}

/// What an operator makes of two numbers.
#[tactic(auto, unfolding(crate::specs::Values::computed))]
fn computed(op: Operator, a: i32, b: i32) -> Option<i32>
    ensures { result ≡ computed op a b }
{
    match op {
        Operator::Multiply => product(a, b),
        Operator::Divide => divided(a, b),
        Operator::Remainder => remainder(a, b),
        Operator::Add => sum(a, b),
        Operator::Subtract => difference(a, b),
        Operator::ShiftLeft => left_by(a, b),
        Operator::ShiftRight => right_by(a, b),
        Operator::Less => truth(a < b),
        Operator::Greater => truth(b < a),
        Operator::AtMost => truth(a <= b),
        Operator::AtLeast => truth(b <= a),
        Operator::Equal => truth(a == b),
        Operator::NotEqual => truth(a != b),
        Operator::BitAnd => Some(a & b),
        Operator::BitXor => Some(a ^ b),
        Operator::BitOr => Some(a | b),
        Operator::And | Operator::Or => truth(b != 0),
    }
}

/// What an operator makes of two operands. `&&` with a false left side and `||` with a true one do not ask for the
/// right side.
#[tactic(auto, unfolding(crate::specs::Values::applied))]
pub fn applied(op: Operator, v: Option<i32>, w: Option<i32>) -> Option<i32>
    ensures { result ≡ applied op v w }
{
    let a = v?;
    match op {
        Operator::And if a == 0 => Some(0),
        Operator::Or if a != 0 => Some(1),
        _ => computed(op, a, w?),
    }
}

/// `- v`
#[tactic(auto, using(crate::proofs::Fitting::some_fitting))]
pub fn negated(v: Option<i32>) -> Option<i32>
    ensures { result ≡ negated v }
{
    match v {
        None => None,
        Some(a) => a.checked_neg(),
    }
}

/// `~ v`
pub fn complemented(v: Option<i32>) -> Option<i32>
    ensures { result ≡ complemented v }
{
    match v {
        None => None,
        Some(a) => Some(-1 - a),
    }
}

/// `! v`
pub fn inverted(v: Option<i32>) -> Option<i32>
    ensures { result ≡ inverted v }
{
    match v {
        None => None,
        Some(a) => truth(a == 0),
    }
}

#[tactic(auto, unfolding(crate::specs::Values::single_operator))]
fn single_operator(a: u8) -> Option<Operator>
    ensures { result ≡ single_operator a }
{
    match a {
        b'*' => Some(Operator::Multiply),
        b'/' => Some(Operator::Divide),
        b'%' => Some(Operator::Remainder),
        b'+' => Some(Operator::Add),
        b'-' => Some(Operator::Subtract),
        b'<' => Some(Operator::Less),
        b'>' => Some(Operator::Greater),
        b'&' => Some(Operator::BitAnd),
        b'^' => Some(Operator::BitXor),
        b'|' => Some(Operator::BitOr),
        _ => None,
    }
}

#[tactic(auto, unfolding(crate::specs::Values::double_operator))]
fn double_operator(a: u8, b: u8) -> Option<Operator>
    ensures { result ≡ double_operator a b }
{
    if b == b'=' {
        match a {
            b'<' => Some(Operator::AtMost),
            b'>' => Some(Operator::AtLeast),
            b'=' => Some(Operator::Equal),
            b'!' => Some(Operator::NotEqual),
            _ => None,
        }
    } else if a == b {
        match a {
            b'<' => Some(Operator::ShiftLeft),
            b'>' => Some(Operator::ShiftRight),
            b'&' => Some(Operator::And),
            b'|' => Some(Operator::Or),
            _ => None,
        }
    } else {
        None
    }
}

/// The operator that a text spells.
#[tactic(auto, unfolding(crate::specs::Values::operator_of))]
pub fn operator_of(text: &[u8]) -> Option<Operator>
    ensures { result ≡ operator_of text.now }
{
    match text {
        [a] => single_operator(*a),
        [a, b] => double_operator(*a, *b),
        _ => None,
    }
}

/// How tightly an operator binds, from 1, the tightest, to 10.
pub fn level_of(op: Operator) -> u32
    ensures { result ≡ level_of op }
{
    match op {
        Operator::Multiply | Operator::Divide | Operator::Remainder => 1,
        Operator::Add | Operator::Subtract => 2,
        Operator::ShiftLeft | Operator::ShiftRight => 3,
        Operator::Less | Operator::Greater | Operator::AtMost | Operator::AtLeast => 4,
        Operator::Equal | Operator::NotEqual => 5,
        Operator::BitAnd => 6,
        Operator::BitXor => 7,
        Operator::BitOr => 8,
        Operator::And => 9,
        Operator::Or => 10,
    }
}
