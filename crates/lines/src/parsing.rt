// What a line reads as.
ghost use Rattle.std.specs.Prelude.{◌≡◌};
ghost use Rattle.lines.specs.Reading.{Parsed, two_fields};

use base::bytes::byte_at;
use chars::search::find;

// A command. Its first field stands from place 2 on, to the end of the line or to the place that is held; the second one behind it.
#[derive(Clone, Copy)]
pub enum Command {
    Put(usize),
    Drop,
    Default(usize),
    Override(usize),
    List,
}

// D or O, with two fields, the first one up to e.
fn typed(letter: u8, e: usize) -> Option<Command>
    ensures { result ≡ two_fields letter e }
{
    match letter {
        b'D' => Some(Command::Default(e)),
        b'O' => Some(Command::Override(e)),
        _ => None,
    }
}

// The command of a line, none of an unreadable one: fields are parted by one space, and only the content of P may be empty or hold spaces.
pub fn parse(line: &[u8]) -> Option<Command>
    ensures { Parsed line.now result }
{
    let n = line.len();
    if 1024 < n {
        return None;
    }
    if find(line, 0, b' ') != 1 {
        return None;
    }
    let letter = byte_at(line, 0);
    if n == 1 {
        if letter == b'L' {
            return Some(Command::List);
        }
        return None;
    }
    let e = find(line, 2, b' ');
    if e == 2 {
        return None;
    }
    if n <= e {
        if letter == b'X' {
            return Some(Command::Drop);
        }
        return None;
    }
    if letter == b'P' {
        return Some(Command::Put(e));
    }
    let s = e + 1;
    if n <= s {
        return None;
    }
    if find(line, s, b' ') < n {
        return None;
    }
    typed(letter, e)
}
