ghost use Rattle.std.specs.Prelude.{◌≡◌, ◌<◌, ◌+◌, ◌∷◌, [], pos, codes, IfOk};
ghost use Rattle.do_generate.specs.Generated.{next, line_of, generated};

use do_base::{Items, NodeId, Text, Value, Values};
use do_sched::{Line, Lines};
use std::alloc::{AllocError, Global};

/// The number of the generator after this one.
fn next(x: u64) -> u64
    ensures { result ≡ next x }
{
    let wide = u128::from(x) * 6_364_136_223_846_793_005 + 1_442_695_040_888_963_407;
    (wide % 18_446_744_073_709_551_616) as u64
}

/// One of the four nodes of the mesh, by two bits.
fn node(bits: u64) -> NodeId
    requires { bits < 4 }
    ensures { result ≡ 7001 + bits }
{
    match NodeId::new(7001 + bits as u16) {
        Some(node) => node,
        None => unreachable!(),
    }
}

/// The start of a node's root with another node's port.
fn start(alloc: Global, node: NodeId, other: NodeId) -> Result<Line, AllocError>
    ensures { IfOk result (λ line. line
        ≡ Line.Start node (codes "go:") (Value.Num (pos other) ∷ [])) }
{
    let selector = Text::from_slice(alloc, b"go:")?;
    let mut values = Values::new(alloc);
    values.push(Value::Num(i64::from(other.port())))?;
    Ok(Line::Start {
        node,
        selector,
        values,
    })
}

/// The line of a number.
fn line(alloc: Global, x: u64) -> Result<Line, AllocError>
    ensures { IfOk result (λ line. line ≡ line_of x) }
{
    let own = node((x >> 40) % 4);
    let other = node((x >> 44) % 4);
    let kind = (x >> 33) % 10;
    if kind == 0 {
        return start(alloc, own, other);
    }
    if kind < 6 {
        let count = 1 + (x >> 48) % 8;
        return Ok(Line::Run { node: own, count });
    }
    Ok(Line::Take {
        node: own,
        from: other,
    })
}

/// The lines of a schedule that a number generates for the nodes of the mesh: `count` lines, each a
/// start, a run or a take, and a check behind them.
///
/// The numbers are those of a linear congruential generator of 64 bits, with Knuth's multiplier for
/// MMIX. With a count of 1 to 100,000 the lines have at most 800,001 single steps, so they may
/// stand in a schedule; for a count of 0 there is the check alone.
pub fn generate(alloc: Global, number: u64, count: u64) -> Result<Lines, AllocError>
    ensures { IfOk result (λ lines. lines ≡ generated count number) }
{
    let mut lines = Items::new(alloc);
    let mut x = number;
    for _i in 0..count {
        x = next(x);
        lines.push(line(alloc, x)?)?;
    }
    lines.push(Line::Check)?;
    Ok(lines)
}
