//! Worked examples: a run for each exit, over bytes in memory.

use crate::runs::{REPORT, SUM, assert_end, run_of, with_words};
use std::test::Fail;

/// `const GOAL: u8 = 255 + 1`.
const OVERFLOW: &str =
    r#"{"version":1,"world":{"crates":[{"pointer_bytes":8}],"consts":[{"name":"GOAL","krate":0,"ty":{"Uint":"U8"},"body":0}],"bodies":[{"body":{"exprs":[{"Literal":{"Int":["255",null]}},{"Literal":{"Int":["1",null]}},{"BinaryOp":{"lhs":0,"rhs":1,"op":{"ArithOp":"Add"}}}],"body_expr":2},"infer":{"expr_types":[{"Uint":"U8"},{"Uint":"U8"},{"Uint":"U8"}],"copy_types":[{"Uint":"U8"}]}}],"layouts":[[{"Uint":"U8"},{"size":1,"align":1,"sized":true,"offsets":[],"variants":{"Single":0}}]]},"goals":[{"def":{"ConstId":0}}]}"#;

/// The sum without goals.
const NO_GOALS: &str =
    r#"{"version":1,"world":{"crates":[{"pointer_bytes":8}],"consts":[{"name":"GOAL","krate":0,"ty":{"Uint":"Usize"},"body":0}],"bodies":[{"body":{"exprs":[{"Literal":{"Int":["2",null]}},{"Literal":{"Int":["2",null]}},{"BinaryOp":{"lhs":0,"rhs":1,"op":{"ArithOp":"Add"}}}],"body_expr":2},"infer":{"expr_types":[{"Uint":"Usize"},{"Uint":"Usize"},{"Uint":"Usize"}],"copy_types":[{"Uint":"Usize"}]}}],"layouts":[[{"Uint":"Usize"},{"size":8,"align":8,"sized":true,"offsets":[],"variants":{"Single":0}}]]},"goals":[]}"#;

/// The sum with a crate that is no number in range.
const NO_WORLD: &str =
    r#"{"version":1,"world":{"crates":[{"pointer_bytes":8}],"consts":[{"name":"GOAL","krate":-1,"ty":{"Uint":"Usize"},"body":0}],"bodies":[{"body":{"exprs":[{"Literal":{"Int":["2",null]}},{"Literal":{"Int":["2",null]}},{"BinaryOp":{"lhs":0,"rhs":1,"op":{"ArithOp":"Add"}}}],"body_expr":2},"infer":{"expr_types":[{"Uint":"Usize"},{"Uint":"Usize"},{"Uint":"Usize"}],"copy_types":[{"Uint":"Usize"}]}}],"layouts":[[{"Uint":"Usize"},{"size":8,"align":8,"sized":true,"offsets":[],"variants":{"Single":0}}]]},"goals":[{"def":{"ConstId":0}}]}"#;

/// The sum with a node that is its own child.
const NO_TREE: &str =
    r#"{"version":1,"world":{"crates":[{"pointer_bytes":8}],"consts":[{"name":"GOAL","krate":0,"ty":{"Uint":"Usize"},"body":0}],"bodies":[{"body":{"exprs":[{"Literal":{"Int":["2",null]}},{"Literal":{"Int":["2",null]}},{"BinaryOp":{"lhs":2,"rhs":1,"op":{"ArithOp":"Add"}}}],"body_expr":2},"infer":{"expr_types":[{"Uint":"Usize"},{"Uint":"Usize"},{"Uint":"Usize"}],"copy_types":[{"Uint":"Usize"}]}}],"layouts":[[{"Uint":"Usize"},{"size":8,"align":8,"sized":true,"offsets":[],"variants":{"Single":0}}]]},"goals":[{"def":{"ConstId":0}}]}"#;

/// The sum with a goal that is no constant of the world.
const NO_SUCH_GOAL: &str =
    r#"{"version":1,"world":{"crates":[{"pointer_bytes":8}],"consts":[{"name":"GOAL","krate":0,"ty":{"Uint":"Usize"},"body":0}],"bodies":[{"body":{"exprs":[{"Literal":{"Int":["2",null]}},{"Literal":{"Int":["2",null]}},{"BinaryOp":{"lhs":0,"rhs":1,"op":{"ArithOp":"Add"}}}],"body_expr":2},"infer":{"expr_types":[{"Uint":"Usize"},{"Uint":"Usize"},{"Uint":"Usize"}],"copy_types":[{"Uint":"Usize"}]}}],"layouts":[[{"Uint":"Usize"},{"size":8,"align":8,"sized":true,"offsets":[],"variants":{"Single":0}}]]},"goals":[{"def":{"ConstId":1}}]}"#;

/// Words, the input, the exit code, the line of the status, and what is written.
static RUNS: [(&[&str], &str, u8, &str, &str); 9] = [
    (&[], SUM, 0, "", REPORT),
    (&["eval"], SUM, 0, "", REPORT),
    (
        &[],
        OVERFLOW,
        1,
        "",
        "goal 0 error eval InFunction(Panic(\"Overflow in Add\"), [])\n  turns 1\n",
    ),
    (&[], NO_GOALS, 0, "", ""),
    (&[], "{", 3, "mirconst: input is not JSON", ""),
    (
        &[],
        NO_WORLD,
        4,
        "mirconst: not a world: world.consts[0].krate",
        "",
    ),
    (&[], NO_SUCH_GOAL, 4, "mirconst: not a world: goals[0]", ""),
    (
        &[],
        NO_TREE,
        5,
        "mirconst: world fails C2 at bodies[0].exprs[2]",
        "",
    ),
    (
        &["eval", "x"],
        SUM,
        2,
        "usage: mirconst [eval [--blocks N] [--nesting N] [--bytes N] | make N]",
        "",
    ),
];

#[test]
fn runs(rt: HostRuntime) -> Result<(), Fail> {
    for &(words, input, code, line, written) in &RUNS {
        let ended = run_of(rt.alloc(), &with_words(words, input.as_bytes()))?;
        assert_end(&rt, &ended, code, line, written.as_bytes());
    }
    Ok(())
}
