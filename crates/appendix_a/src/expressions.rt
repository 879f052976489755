ghost use Rattle.std.specs.Prelude.{◌≡◌, ◌&&◌, map, None};
ghost use Rattle.appendix_a.specs.Ahead.{ahead_of, place_next, past_known};
ghost use Rattle.appendix_a.specs.Rules.{Comes};
ghost use Rattle.appendix_a.specs.Site.{site_of};
ghost use Rattle.appendix_a.specs.Expressions as spec;
ghost use Rattle.appendix_a.specs.Expressions.{expression, past_name};
ghost use Rattle.appendix_a.specs.Taken.{then_argument};

use crate::ahead::Ahead;
use crate::calls::{called_gives_back, makes};
use crate::findings::{Arguments, Finding};
use crate::rule::Rule;
use crate::site::Site;
use glsl_tree::{AssignmentOperator, BinaryOperator, Callee, Expr, PrefixOperator};

/// The end of an expression of which this is found.
fn node(ahead: &mut Ahead<'_>, found: Finding) -> Result<Finding, Rule>
    ensures { Comes (spec.node None found (ahead_of ahead.old)) ahead.new result }
{
    let constant = ahead.constant();
    Ok(Finding { constant, ..found })
}

/// An expression that is no variable.
fn whole(made: bool) -> Finding
    ensures { result ≡ spec.whole made }
{
    Finding {
        constant: false,
        made,
        variable: None,
        root: None,
        index: false,
        compared: None,
        stepped: false,
    }
}

/// A name.
fn name(site: &Site<'_>, ahead: &mut Ahead<'_>, text: &[u8]) -> Result<Finding, Rule>
    ensures { Comes (spec.name_outcome (site_of site.now) text.now (ahead_of ahead.old)) ahead.new result }
{
    let number = ahead.place();
    let constant = ahead.constant();
    let index = site.is_header(text);
    Ok(Finding {
        constant,
        made: constant || index || site.loops.has(Some(number)),
        variable: Some(number),
        root: Some(number),
        index,
        compared: None,
        stepped: false,
    })
}

/// An expression: what is found of it, or the first rule that it breaks.
#[cycle(expression)]
#[tactic(auto, unfolding(crate::specs::Expressions::part))]
pub(crate) fn expression(site: &Site<'_>, ahead: &mut Ahead<'_>, e: &Expr) -> Result<Finding, Rule>
    ensures { Comes (expression e.now (site_of site.now) (ahead_of ahead.old)) ahead.new result }
{
    match e {
        Expr::Name(text) => name(site, ahead, text.as_slice()),
        Expr::Int(_) | Expr::Float(_) | Expr::Truth(_) => node(ahead, whole(true)),
        Expr::Bracket(inner) => {
            let inner = expression(site, ahead, inner.get())?;
            let found = Finding {
                variable: inner.variable,
                root: inner.root,
                ..whole(inner.made)
            };
            node(ahead, found)
        }
        Expr::Call { callee, arguments } => call(site, ahead, callee, arguments.as_slice()),
        Expr::CallVoid { callee } => call(site, ahead, callee, &[]),
        Expr::Index { base, index } => {
            let base = expression(site, ahead, base.get())?;
            let index = expression(site, ahead, index.get())?;
            if !index.made && !may_have_any(site, base) {
                return Err(Rule(6));
            }
            let found = Finding {
                root: base.root,
                ..whole(base.made && index.made)
            };
            node(ahead, found)
        }
        Expr::Field { base, .. } => {
            let base = expression(site, ahead, base.get())?;
            let found = Finding {
                root: base.root,
                ..whole(base.made)
            };
            node(ahead, found)
        }
        Expr::Postfix { operand, .. } => {
            let operand = expression(site, ahead, operand.get())?;
            increment(site, ahead, operand)
        }
        Expr::Prefix { operator, operand } => {
            let operand = expression(site, ahead, operand.get())?;
            prefix(site, ahead, *operator, operand)
        }
        Expr::Binary {
            operator,
            left,
            right,
        } => {
            let left = expression(site, ahead, left.get())?;
            let right = expression(site, ahead, right.get())?;
            node(ahead, binary(*operator, left, right))
        }
        Expr::Conditional {
            condition,
            if_true,
            if_false,
        } => {
            let condition = expression(site, ahead, condition.get())?;
            let if_true = expression(site, ahead, if_true.get())?;
            let if_false = expression(site, ahead, if_false.get())?;
            node(
                ahead,
                whole(condition.made && if_true.made && if_false.made),
            )
        }
        Expr::Assign {
            operator,
            target,
            value,
        } => {
            let target = expression(site, ahead, target.get())?;
            let value = expression(site, ahead, value.get())?;
            if site.is_index(target) {
                return Err(Rule(5));
            }
            node(ahead, assignment(*operator, target, value))
        }
    }
}

/// A call with these arguments.
#[cycle(expression)]
fn call(
    site: &Site<'_>,
    ahead: &mut Ahead<'_>,
    callee: &Callee,
    arguments: &[Expr],
) -> Result<Finding, Rule>
    ensures { Comes (spec.call (site_of site.now) callee.now (place_next (spec.past_names (map spec.part arguments.now) (ahead_of ahead.old))) (map spec.part arguments.now) (ahead_of ahead.old)) ahead.new result }
{
    let mut past = *ahead;
    pass_names(&mut past, arguments);
    let number = past.place();
    let found = each_argument(site, ahead, callee, number, arguments)?;
    if found.index_out {
        return Err(Rule(5));
    }
    pass_callee(ahead, callee);
    node(ahead, whole(makes(site, callee, number) && found.made))
}

/// Some arguments and one more behind them.
fn then_argument(site: &Site<'_>, found: Arguments, gives_back: bool, f: Finding) -> Arguments
    ensures { result ≡ then_argument (site_of site.now) found gives_back f }
{
    Arguments {
        made: found.made && f.made,
        index_out: found.index_out || (gives_back && site.is_index(f)),
    }
}

/// The arguments of a call of a function of this number.
#[cycle(expression)]
#[tactic(auto, using(crate::proofs::Arguments::of_arguments))]
fn each_argument(
    site: &Site<'_>,
    ahead: &mut Ahead<'_>,
    callee: &Callee,
    number: u32,
    arguments: &[Expr],
) -> Result<Arguments, Rule>
    ensures { Comes (spec.arguments_outcome (site_of site.now) (spec.called_parameters (site_of site.now) callee.now number) (map spec.part arguments.now) (ahead_of ahead.old)) ahead.new result }
{
    let mut found = Arguments {
        made: true,
        index_out: false,
    };
    for (place, argument) in arguments.iter().enumerate() {
        let f = expression(site, ahead, argument)?;
        let gives_back = called_gives_back(site, callee, number, place);
        found = then_argument(site, found, gives_back, f);
    }
    Ok(found)
}

/// Goes past the names of an expression.
#[cycle(pass)]
#[tactic(auto, unfolding(crate::specs::Expressions::part))]
fn pass_name(ahead: &mut Ahead<'_>, e: &Expr)
    ensures { ahead_of ahead.new ≡ past_name e.now (ahead_of ahead.old) }
{
    match e {
        Expr::Name(_) => {
            ahead.place();
        }
        Expr::Int(_) | Expr::Float(_) | Expr::Truth(_) => {}
        Expr::Bracket(inner) => pass_name(ahead, inner.get()),
        Expr::Call { callee, arguments } => {
            pass_names(ahead, arguments.as_slice());
            pass_callee(ahead, callee);
        }
        Expr::CallVoid { callee } => pass_callee(ahead, callee),
        Expr::Index { base, index } => {
            pass_name(ahead, base.get());
            pass_name(ahead, index.get());
        }
        Expr::Field { base, .. } => pass_name(ahead, base.get()),
        Expr::Postfix { operand, .. } => pass_name(ahead, operand.get()),
        Expr::Prefix { operand, .. } => pass_name(ahead, operand.get()),
        Expr::Binary { left, right, .. } => {
            pass_name(ahead, left.get());
            pass_name(ahead, right.get());
        }
        Expr::Conditional {
            condition,
            if_true,
            if_false,
        } => {
            pass_name(ahead, condition.get());
            pass_name(ahead, if_true.get());
            pass_name(ahead, if_false.get());
        }
        Expr::Assign { target, value, .. } => {
            pass_name(ahead, target.get());
            pass_name(ahead, value.get());
        }
    }
}

/// Goes past the names of expressions.
#[cycle(pass)]
fn pass_names(ahead: &mut Ahead<'_>, all: &[Expr])
    ensures { ahead_of ahead.new ≡ spec.past_names (map spec.part all.now) (ahead_of ahead.old) }
{
    for e in all {
        pass_name(ahead, e);
    }
}

/// Goes past the name of what is called.
fn pass_callee(ahead: &mut Ahead<'_>, callee: &Callee)
    ensures { ahead_of ahead.new ≡ spec.past_callee callee.now (ahead_of ahead.old) }
{
    match callee {
        Callee::Name(_) => {
            ahead.place();
        }
        Callee::Basic(_) => {}
    }
}

/// Whether an expression may have any index.
fn may_have_any(site: &Site<'_>, base: Finding) -> bool
    ensures { result ≡ spec.may_have_any (site_of site.now) base }
{
    match base.root {
        Some(number) => site.is_vertex() && site.names.is_uniform(number),
        None => false,
    }
}

/// `++` or `--` on an operand.
fn increment(site: &Site<'_>, ahead: &mut Ahead<'_>, operand: Finding) -> Result<Finding, Rule>
    ensures { Comes (spec.increment_outcome (site_of site.now) operand (ahead_of ahead.old)) ahead.new result }
{
    if site.is_index(operand) {
        return Err(Rule(5));
    }
    let found = Finding {
        stepped: operand.index,
        ..whole(operand.made)
    };
    node(ahead, found)
}

/// An operator before its operand.
fn prefix(
    site: &Site<'_>,
    ahead: &mut Ahead<'_>,
    operator: PrefixOperator,
    operand: Finding,
) -> Result<Finding, Rule>
    ensures { Comes (spec.prefix_outcome (site_of site.now) operator operand (ahead_of ahead.old)) ahead.new result }
{
    match operator {
        PrefixOperator::Increment | PrefixOperator::Decrement => increment(site, ahead, operand),
        PrefixOperator::Plus | PrefixOperator::Minus | PrefixOperator::Not => {
            node(ahead, whole(operand.made))
        }
    }
}

/// Whether an operator compares two values.
fn compares(operator: BinaryOperator) -> bool
    ensures { result ≡ spec.compares operator }
{
    match operator {
        BinaryOperator::Less
        | BinaryOperator::Greater
        | BinaryOperator::LessEqual
        | BinaryOperator::GreaterEqual
        | BinaryOperator::Equal
        | BinaryOperator::NotEqual => true,
        _ => false,
    }
}

/// An operator between two operands.
fn binary(operator: BinaryOperator, left: Finding, right: Finding) -> Finding
    ensures { result ≡ spec.binary_finding operator left right }
{
    let compared = if compares(operator) && left.index && right.constant {
        left.variable
    } else {
        None
    };
    Finding {
        compared,
        ..whole(left.made && right.made)
    }
}

/// An assignment.
fn assignment(operator: AssignmentOperator, target: Finding, value: Finding) -> Finding
    ensures { result ≡ spec.assign_finding operator target value }
{
    let steps = match operator {
        AssignmentOperator::Add | AssignmentOperator::Subtract => true,
        _ => false,
    };
    Finding {
        stepped: steps && target.index && value.constant,
        ..whole(target.made && value.made)
    }
}
