use crate::cases::{RULE_1, RULE_2, RULE_3, RULE_4, RULE_5, RULE_6, Row};
use crate::shaders::shader;
use crate::{Rule, check_limits};
use gl_numbers::Stage;
use glsl_tree::{Unit, spell};
use glsl_types::Facts;
use std::alloc::Global;
use std::process::Abort;
use std::test::Fail;

/// The number of the rule that a shader breaks first, 0 where it breaks none.
#[tactic(auto, using(crate::proofs::Lengths::of_tokens))]
fn judged(alloc: Global, unit: &Unit, facts: &Facts, stage: Stage) -> Option<u8> {
    let Ok(tokens) = spell(alloc, unit) else {
        return None;
    };
    if tokens.len() > 131_072 {
        return None;
    }
    match check_limits(unit, facts, stage) {
        Ok(()) => Some(0),
        Err(Rule(number)) => Some(number),
    }
}

/// The rule that a body breaks first, 0 where it breaks none; None where the letters make no body.
fn outcome(alloc: Global, stage: Stage, letters: &[u8]) -> Option<u8> {
    let (unit, facts) = shader(alloc, letters)?;
    judged(alloc, &unit, &facts, stage)
}

fn expect_rows(rt: &impl Abort, alloc: Global, rows: &[Row]) {
    for (stage, source, letters, rule) in rows {
        let found = outcome(alloc, *stage, letters);
        assert!(rt; found == Some(*rule), "of {source:?}: {found:?}");
    }
}

#[test]
fn bodies_break_the_rules_that_they_break(rt: HostRuntime) -> Result<(), Fail> {
    let alloc = rt.alloc();
    expect_rows(&rt, alloc, &RULE_1);
    expect_rows(&rt, alloc, &RULE_2);
    expect_rows(&rt, alloc, &RULE_3);
    expect_rows(&rt, alloc, &RULE_4);
    expect_rows(&rt, alloc, &RULE_5);
    expect_rows(&rt, alloc, &RULE_6);
    Ok(())
}
