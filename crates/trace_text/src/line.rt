// A begun line of a row.
ghost use Rattle.std.specs.Prelude.{[], ◌≡◌, length};
ghost use Rattle.trace_text.specs.Traces.{entry, is_digit, right, vector};
ghost use Rattle.trace_text.specs.Steps.{ArePorts, Wants, whole};
ghost use Rattle.trace_text.specs.inner.Calls.{row_of};

use crate::Row;

fn is_binary(byte: u8) -> bool
    ensures { result ≡ is_digit byte }
{
    byte == b'0' || byte == b'1'
}

// Whether the line has all the bytes that it should have.
pub(crate) fn is_whole(inputs: usize, begun: &[u8]) -> bool
    ensures { result ≡ whole inputs begun.now }
{
    match begun {
        [b'r', ..] => begun.len() == 1,
        _ => begun.len() == inputs,
    }
}

// Whether the byte is right behind the begun line.
pub(crate) fn is_wanted(inputs: usize, begun: &[u8], byte: u8) -> bool
    requires { right inputs begun.now ≡ length begun.now }
    ensures { Wants inputs begun.now byte result }
{
    let [first, ..] = begun else {
        return is_wanted_first(inputs, byte);
    };
    if *first == b'r' {
        return false;
    }
    if begun.len() >= inputs {
        return false;
    }
    is_binary(byte)
}

fn is_wanted_first(inputs: usize, byte: u8) -> bool
    ensures { Wants inputs [] byte result }
{
    if byte == b'r' {
        return true;
    }
    if inputs == 0 {
        return false;
    }
    is_binary(byte)
}

// The vector of a row's digits.
pub(crate) fn read_vector(order: &[u8], digits: &[u8]) -> u64
    requires { ArePorts order.now }
    ensures { result ≡ vector order.now digits.now }
{
    let [port, ports @ ..] = order else {
        return 0;
    };
    let [first, rest @ ..] = digits else {
        return 0;
    };
    let others = read_vector(ports, rest);
    if *first == b'1' {
        1 << *port | others
    } else {
        others
    }
}

// The answer to a good row.
pub(crate) fn read_row(order: &[u8], begun: &[u8]) -> Row
    requires { ArePorts order.now }
    ensures { result ≡ row_of (entry order.now begun.now) }
{
    match begun {
        [b'r', ..] => Row::Reset,
        _ => Row::Vector(read_vector(order, begun)),
    }
}
