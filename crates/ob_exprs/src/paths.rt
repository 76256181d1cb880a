ghost use Rattle.std.specs.Prelude.{◌≡◌, ◌≤◌, ◌^◌};
ghost use Rattle.ob_exprs.specs.DeepestPaths.{head_height as head_height_of, inner as inner_of, line_height as line_height_of, newest_path as newest_path_of, newest_stack_path as newest_stack_path_of, rise as rise_of};
ghost use Rattle.ob_exprs.specs.Reading.{held, state_of};
ghost use Rattle.ob_exprs.specs.View.{pending_of, head_of, line_of};

use crate::reader::Reader;
use crate::stack::{Stack, head_rise, rise};
use crate::state::{Head, Mode, PendingNode, StructDeclaration};

fn line_height(line: &StructDeclaration) -> usize
    ensures exact { result ≡ line_height_of (line_of line.now) }
    ensures small { result ≤ 2 ^ 32 }
{
    line.body
        .members
        .height
        .max(line.spec.height.max(line.names.height)) as usize
}

fn head_height(head: &Head) -> usize
    ensures exact { result ≡ head_height_of (head_of head.now) }
    ensures small { result ≤ 2 ^ 33 }
{
    match head {
        Head::Type { spec, .. } => 1 + spec.height as usize,
        Head::Member { line, .. } => 1 + line_height(line),
    }
}

/// The most nodes on a path of a node that waits.
fn inner(pending: &PendingNode) -> usize
    ensures exact { result ≡ inner_of (pending_of pending.now) }
    ensures small { result ≤ 2 ^ 35 }
{
    match pending {
        PendingNode::Index(_, base) => 1 + base.height as usize,
        PendingNode::Call(_, _, arguments) => 1 + arguments.height as usize,
        PendingNode::Cast(_, name) => 1 + name.height as usize,
        PendingNode::Join(_, _, left) => 1 + left.height as usize,
        PendingNode::Then(_, test) => 1 + test.height as usize,
        PendingNode::Else(_, test, then) => 1 + test.height.max(then.height) as usize,
        PendingNode::Length(head, dims) => head_height(head).max(
            head_rise(head) + (dims.height as usize).max(dims.count as usize + 1),
        ),
        PendingNode::Struct(body) => 1 + body.members.height as usize,
        _ => 1,
    }
}

fn newest_pending(stack: &Stack) -> usize
    ensures exact { result ≡ newest_stack_path_of (held stack.now) }
    ensures small { result ≤ 2 ^ 36 }
{
    match stack.pending.last() {
        None => 0,
        Some(top) => stack.depth as usize - rise(top) + inner(top),
    }
}

/// The nodes on the paths of what was read last.
pub fn newest_path(reader: &Reader) -> usize
    ensures { result ≡ newest_path_of (state_of reader.now) }
{
    let depth = reader.stack.depth as usize;
    match &reader.mode {
        Mode::BeforeOperand | Mode::Specifier => newest_pending(&reader.stack),
        Mode::Open(_)
        | Mode::Size(_)
        | Mode::SizeOpen(_, _)
        | Mode::Called(_, _)
        | Mode::StructWord(_) => depth + 1,
        Mode::Select(_, _, base) => depth + (1 + base.height as usize),
        Mode::AfterOperand(operand) => depth + operand.height as usize,
        Mode::Members(body) => depth + (1 + body.members.height as usize),
        Mode::Declare(line, stars) => depth + (1 + line_height(line).max(*stars as usize)),
        Mode::Dims(head, dims) => {
            depth + head_height(head).max(head_rise(head) + dims.height as usize)
        }
        Mode::AfterSpec(spec) => depth + spec.height as usize,
    }
}
