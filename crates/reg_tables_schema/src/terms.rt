//! Whether two expressions are the same, as trees: where their nodes stand does not matter.

ghost use Rattle.std.specs.Prelude.{◌≡◌, ◌↔◌, ◌⊎◌, ◌<◌, IsTrue};
ghost use Rattle.sqlite_value.specs.Value.{owned};
ghost use Rattle.sqlite_sql.specs.Syntax.{node_term};
ghost use Rattle.sqlite_schema.specs.Code.{IsLoanOf, term_to, terms_in};

use sqlite_schema::code::{Op, Terms, lend_value};
use sqlite_sql::expr::Node;
use sqlite_sql::ops::BinaryOp;
use sqlite_value::value::ValueRef;

// A zero keeps its sign, and a NaN is itself.
fn same_real(x: f64, y: f64) -> bool
    ensures { IsTrue result ↔ (x ≡ y) }
{
    if x.is_nan() {
        return y.is_nan();
    }
    if y.is_nan() {
        return false;
    }
    x.to_bits() == y.to_bits()
}

pub(crate) fn same_value(a: ValueRef<'_>, b: ValueRef<'_>) -> bool
    ensures { IsTrue result ↔ (owned a.entry ≡ owned b.entry) }
{
    match (a, b) {
        (ValueRef::Null, ValueRef::Null) => true,
        (ValueRef::Int(x), ValueRef::Int(y)) => x == y,
        (ValueRef::Real(x), ValueRef::Real(y)) => same_real(x, y),
        (ValueRef::Text(x), ValueRef::Text(y)) => x == y,
        (ValueRef::Blob(x), ValueRef::Blob(y)) => x == y,
        _ => false,
    }
}

fn same_binary_op(a: BinaryOp, b: BinaryOp) -> bool
    ensures { IsTrue result ↔ (a ≡ b) }
{
    a == b
}

fn lend(op: &Op) -> Node<'_>
    ensures { IsLoanOf op.now result }
{
    match op {
        Op::Literal(value) => Node::Literal(lend_value(value)),
        Op::Column(slot, at) => Node::Column(*slot, *at),
        Op::Unary(op, a) => Node::Unary(*op, *a),
        Op::Binary(op, a, b) => Node::Binary(*op, *a, *b),
        Op::Case(test, a, b) => Node::Case(*test, *a, *b),
    }
}

// The node at a place, and the depth to which its operands are read: NULL at depth 0 or where no
// node is.
fn open(ops: &[Op], depth: usize, at: usize) -> (Node<'_>, usize)
    ensures term { term_to ops.now depth at ≡ node_term (term_to ops.now result.1) result.0 }
    ensures falls { (result.1 < depth) ⊎ (result.0 ≡ Node.Literal ValueRef.Null) }
{
    if depth == 0 || at >= ops.len() {
        return (Node::Literal(ValueRef::Null), 0);
    }
    (lend(&ops[at]), depth - 1)
}

// Each expression is the node at a place, read to a depth. The walk ends where the two first
// differ, so it is no longer than either.
fn same_term(a: &[Op], depth_a: usize, at_a: usize, b: &[Op], depth_b: usize, at_b: usize) -> bool
    ensures { IsTrue result ↔ (term_to a.now depth_a at_a ≡ term_to b.now depth_b at_b) }
{
    let (left, depth_a) = open(a, depth_a, at_a);
    let (right, depth_b) = open(b, depth_b, at_b);
    match (left, right) {
        (Node::Literal(v), Node::Literal(w)) => same_value(v, w),
        (Node::Column(v, p), Node::Column(w, q)) => v == w && p == q,
        (Node::Unary(v, p), Node::Unary(w, q)) => v == w && same_term(a, depth_a, p, b, depth_b, q),
        (Node::Binary(v, p, r), Node::Binary(w, q, s)) => {
            same_binary_op(v, w)
                && same_term(a, depth_a, p, b, depth_b, q)
                && same_term(a, depth_a, r, b, depth_b, s)
        }
        (Node::Case(v, p, r), Node::Case(w, q, s)) => {
            same_term(a, depth_a, v, b, depth_b, w)
                && same_term(a, depth_a, p, b, depth_b, q)
                && same_term(a, depth_a, r, b, depth_b, s)
        }
        _ => false,
    }
}

fn same_trees(a: &[Op], roots: &[usize], b: &[Op], others: &[usize]) -> bool
    ensures { IsTrue result ↔ (terms_in a.now roots.now ≡ terms_in b.now others.now) }
{
    if roots.len() != others.len() {
        return false;
    }
    for (i, x) in roots.iter().enumerate() {
        if !same_term(a, a.len(), *x, b, b.len(), others[i]) {
            return false;
        }
    }
    true
}

pub(crate) fn same_terms(a: &Terms, b: &Terms) -> bool
    ensures { IsTrue result ↔ (a.now ≡ b.now) }
{
    same_trees(
        a.nodes.as_slice(),
        a.roots.as_slice(),
        b.nodes.as_slice(),
        b.roots.as_slice(),
    )
}
