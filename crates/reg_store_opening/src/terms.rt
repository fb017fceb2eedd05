//! Compares SQL expressions (terms), node by node.

ghost use Rattle.std.specs.Prelude.{◌≡◌, ◌<◌, ◌↔◌, IsTrue, IfSome, MatchOption};
ghost use Rattle.sqlite_value.specs.declared.value.Value.TheVariants.{Null};
ghost use Rattle.sqlite_sql.specs.Term.{lit};
ghost use Rattle.sqlite_schema.specs.Code.{op_term, term_to, term_in, terms_in};

use crate::same::Same;
use sqlite_schema::code::{Op, Terms, lend_value};
use sqlite_value::order;
use sqlite_value::value::Value;

/// The term with the root `nodes[at]`. A node has its operands' indexes in `nodes`. Nodes below `depth` levels are read as NULL, so recursion ends.
#[derive(Clone, Copy)]
struct TermRef<'a> {
    nodes: &'a [Op],
    depth: usize,
    at: usize,
}

impl Same for Value {
    fn is_same(&self, other: &Value) -> bool {
        order::is_same(lend_value(self), lend_value(other))
    }
}

/// The root of a term, and the depth to which its operands are read. `None` (the term is read as NULL) if `depth` is 0 or there is no `nodes[at]`.
fn node_at<'a>(term: TermRef<'a>) -> Option<(&'a Op, usize)>
    ensures falls { IfSome result (λ found. found.1 < term.entry.depth) }
    ensures is { MatchOption result (term_to term.entry.nodes.now term.entry.depth term.entry.at ≡ lit Null)
        (λ found. term_to term.entry.nodes.now term.entry.depth term.entry.at
        ≡ op_term (term_to term.entry.nodes.now found.1) found.0.now) }
{
    if term.depth == 0 || term.at >= term.nodes.len() {
        return None;
    }
    Some((&term.nodes[term.at], term.depth - 1))
}

fn operand(term: TermRef<'_>, depth: usize, at: usize) -> TermRef<'_>
    ensures { (result.nodes.now ≡ term.entry.nodes.now) × (result.depth ≡ depth) × (result.at ≡ at) }
{
    TermRef {
        nodes: term.nodes,
        depth,
        at,
    }
}

fn is_null(term: TermRef<'_>) -> bool
    ensures { IsTrue result ↔ (term_to term.entry.nodes.now term.entry.depth term.entry.at ≡ lit Null) }
{
    match node_at(term) {
        None => true,
        Some((Op::Literal(Value::Null), _)) => true,
        _ => false,
    }
}

/// Whether two terms are the same. `a`, `b` are operands on the left, `c`, `d` on the right. A `Column` has the index of a row and of its value.
fn same_term(left: TermRef<'_>, right: TermRef<'_>) -> bool
    ensures { IsTrue result ↔ (term_to left.entry.nodes.now left.entry.depth left.entry.at
        ≡ term_to right.entry.nodes.now right.entry.depth right.entry.at) }
{
    let Some((first, depth)) = node_at(left) else {
        return is_null(right);
    };
    let Some((second, right_depth)) = node_at(right) else {
        return is_null(left);
    };
    match first {
        Op::Literal(value) => match second {
            Op::Literal(other) => value.is_same(other),
            _ => false,
        },
        Op::Column(slot, at) => match second {
            Op::Column(other, other_at) => *slot == *other && *at == *other_at,
            _ => false,
        },
        Op::Unary(op, a) => match second {
            Op::Unary(other, c) => {
                *op == *other
                    && same_term(operand(left, depth, *a), operand(right, right_depth, *c))
            }
            _ => false,
        },
        Op::Binary(op, a, b) => match second {
            Op::Binary(other, c, d) => {
                *op == *other
                    && same_term(operand(left, depth, *a), operand(right, right_depth, *c))
                    && same_term(operand(left, depth, *b), operand(right, right_depth, *d))
            }
            _ => false,
        },
        Op::Case(test, a, b) => match second {
            Op::Case(other_test, c, d) => {
                same_term(
                    operand(left, depth, *test),
                    operand(right, right_depth, *other_test),
                ) && same_term(operand(left, depth, *a), operand(right, right_depth, *c))
                    && same_term(operand(left, depth, *b), operand(right, right_depth, *d))
            }
            _ => false,
        },
    }
}

/// The term with this root, read to a depth that reaches all nodes.
fn whole_term(nodes: &[Op], at: usize) -> TermRef<'_>
    ensures { term_to result.nodes.now result.depth result.at ≡ term_in nodes.now at }
{
    TermRef {
        nodes,
        depth: nodes.len(),
        at,
    }
}

fn are_same(left: &[Op], left_roots: &[usize], right: &[Op], right_roots: &[usize]) -> bool
    ensures { IsTrue result ↔ (terms_in left.now left_roots.entry.now
        ≡ terms_in right.now right_roots.entry.now) }
{
    let mut left_roots = left_roots;
    let mut right_roots = right_roots;
    while let [first, rest @ ..] = left_roots {
        let [second, more @ ..] = right_roots else {
            return false;
        };
        if !same_term(whole_term(left, *first), whole_term(right, *second)) {
            return false;
        }
        left_roots = rest;
        right_roots = more;
    }
    right_roots.is_empty()
}

impl Same for Terms {
    fn is_same(&self, other: &Terms) -> bool {
        are_same(
            self.nodes.as_slice(),
            self.roots.as_slice(),
            other.nodes.as_slice(),
            other.roots.as_slice(),
        )
    }
}
