//! The words of the command line: which there are, what help says of them, and how clap gets them.

use clap::{Arg, ArgAction, Command};
use std::alloc::{AllocError, Global};

/// The commands, a line each: its name, the keys of the words behind it, and what it is about.
const COMMANDS: &str = "\
check | CAPTURE ORDER start profile json hints | Did both ends keep the protocol, and did every read return the right bytes?
explain | CAPTURE ORDER? start profile states steps json hints | Why is the answer no?
order | CAPTURE start profile whole arrival states steps json hints | Finds an order of service that explains a capture
contents | CAPTURE ORDER? start profile against json hints | What does a session leave on the export?
show | CAPTURE names profile json hints | Which messages does a capture hold?
lint | CAPTURE? profile-of-lint level allow json list hints | Which sentences of proto.md does a session break, beside what 'check' says?
make | SCRIPT hints | Makes a capture of the messages of a script";

/// The words behind commands, a line each: its key and its name; what it takes, a flag nothing; what stands for that where it is not
/// said; the words beside which it has no meaning; and what help says.
const WORDS: &str = "\
CAPTURE | CAPTURE | FILE | - | - | The file of the capture text
CAPTURE? | CAPTURE | FILE? | - | - | The file of the capture text
ORDER | ORDER | FILE | - | - | The file of the order text
ORDER? | ORDER | FILE? | - | - | The file of the order text
SCRIPT | SCRIPT | FILE | - | - | The file of the script
start | start | START | unknown | - | What the export held at first: unknown, zero, image:PATH or contents:PATH
profile | profile | PROFILE | base | - | What the session is held to: base, or wide, which also knows metadata contexts, block sizes, extended headers, error chunks of other types and READs that are served by chunk
profile-of-lint | profile | PROFILE | wide | - | How far the session is read: as a session of the profile base, or of wide
against | against | IMAGE | - | - | Compares with this file in place of printing
whole | whole | - | - | - | Only an order that serves each request atomically
arrival | arrival | - | - | start whole states steps | The order in which the requests came
states | states | NUMBER | - | ORDER | How many states the search may hold for one range, 5000 where not said
steps | steps | NUMBER | - | ORDER | How many steps the search may take, 10^9 where not said
names | names | - | - | - | Tells the messages in words
hints | hints | - | - | - | Says on standard error what it says on a terminal: why an input could not be read, what is wrong with a line
level | level | LEVEL | should | - | Down to which level is told: must, should or hint
allow | allow | RULE | - | - | A rule that may be broken; may stand more than once
json | json | - | - | - | Prints an object of JSON a line
list | list | - | - | CAPTURE profile level allow json | Prints the rules: level, who is bound, name, and the lines of proto.md";

/// What stands in a line where there is nothing.
const NONE: &str = "-";

const CHECK_HELP: &str = "\
Example:
  nbdcheck check session.cap session.ord --start zero

CAPTURE has a line for each recorded piece, 'C' or 'S' for its sender, a space and hexadecimal
digits. ORDER has a line for each service, in their order: 'k' where request k was served atomically,
'k offset length' where a part of it was, which has so many bytes from this offset of the export on.
START is what the export held at first: unknown bytes, zeroes, the bytes of a file, or what a text says that
'nbdcheck contents' printed.

Exit status:
  0  yes
  1  no: the line says where and why
  2  the command line has no form
  3  an input could not be read or is not well formed, or the output could not be written
  4  out of memory";

const EXPLAIN_HELP: &str = "\
Example:
  nbdcheck explain session.cap session.ord --start zero

Prints the line of 'nbdcheck check', after a yes the requests that the client should not have sent, and
after a no what an author needs to mend the program: the rule, who broke it and where it stands; the
message with its first and last byte, counted from 1 over both sides; of a wrong byte which one was
expected, and which entry of ORDER wrote it; of an order its entries, and what is wrong with a part; and
the bytes round the place, which stands in brackets.
Without ORDER it looks for one, as 'nbdcheck order' does:
  nbdcheck explain session.cap --start zero
Of an order that it finds it prints the line of 'nbdcheck check', and what such a yes is worth; where no
order explains the session, which reads show it at which offset, and what they could have read there.

Exit status:
  0  yes
  1  no: the lines say where and why
  2  the command line has no form
  3  an input could not be read or is not well formed, or the output could not be written
  4  out of memory
  5  without ORDER: the search gave up, and nothing is proved";

const ORDER_HELP: &str = "\
Example:
  nbdcheck order session.cap --start zero > session.ord

Looks for an order in which the server can have carried out the requests so that each read was right,
and prints it: a line 'k' for request k, or 'k offset length' for a part of it. It is judged as
'nbdcheck check' judges it before it is printed. It may not be the order that the server took: a wrong
byte that is an older one may be right in another order. So where the server can log its order, check
that one.
It serves requests in parts only where its way of searching found no other; with --whole no such order
is printed. That no order explains the session is proved, and told by reads of which each order has one
wrong at an offset. With --arrival the numbers of the requests in the order in which they came are
printed, unjudged: the order of a server that takes one request after the other.

Exit status:
  0  an order was printed
  1  no order explains the session: the line says why
  2  the command line has no form
  3  an input could not be read or is not well formed, or the output could not be written
  4  out of memory
  5  the search gave up: the line says where; or none was found of whole requests. Nothing is proved";

const CONTENTS_HELP: &str = "\
Example:
  nbdcheck contents session.cap --start zero > session.con

Prints what the export holds behind the session, as a start of the next one takes it:
  nbdcheck explain next.cap --start contents:session.con
It has a line 'size n', and from offset o on 'zero o n', 'unknown o n' or 'data o' with hexadecimal digits.
With ORDER it is what that order leaves, where it explains the session; where it does not the line of
'nbdcheck check' is printed. Without ORDER it is what every order leaves that explains the session, as
far as arrivals, replies and later READs show it; whether one does is what 'nbdcheck explain' says. Do
not give an order that 'nbdcheck order' found: it may not be the one that the server took.
With --against the contents are compared with a file: 'agrees known n unknown n', or 'no against' with
the sizes, or with the least offset of a byte that is another one. 'no export': there was no transmission.

Exit status:
  0  the contents were printed, or the file agrees
  1  no: the line says why
  2  the command line has no form
  3  an input could not be read or is not well formed, or the output could not be written
  4  out of memory";

const SHOW_HELP: &str = "\
Example:
  nbdcheck show session.cap

Prints a line for each message, in the order in which they were complete:
  C request flags=0 command=0 cookie=1 offset=0 length=4 payload=
Then comes 'ok', or 'no at byte' with the place and the name of the rule that was broken there.
The message lines are a script for 'nbdcheck make', with or without the 'ok'.
With --names each message is told in words, and each request with what became of it:
  C READ #1, cookie 0x1, 4 bytes at 0: success

Exit status:
  0  ok
  1  no: the last line says where and why
  2  the command line has no form
  3  the capture could not be read or is not well formed, or the output could not be written
  4  out of memory";

const LINT_HELP: &str = "\
Example:
  nbdcheck lint session.cap

Prints a line for each rule that a side broke, at the first message that did:
  must at byte 18: server: handshake-flags: the greeting has flags 0x0007; ..
A right client or server never breaks a rule of level must; one of level should is advice of proto.md,
and a hint, which --level hint tells, is neither. '(2 more)' says that two later messages broke it too.
The last line counts the lines of each level. Where the session is refused, the line of 'nbdcheck show'
stands before it. What a client should not have sent is not told here: 'nbdcheck explain' lists it.

Exit status:
  0  no line of level must, and the session was accepted
  1  a line of level must, or the session was refused
  2  the command line has no form, or names a rule that there is not
  3  the capture could not be read or is not well formed, or the output could not be written
  4  out of memory";

const MAKE_HELP: &str = "\
Example:
  nbdcheck make session.script > session.cap

SCRIPT has a line for each message, as 'nbdcheck show' prints it:
  C request flags=0 command=0 cookie=1 offset=0 length=4 payload=
Empty lines, lines that begin with '#' and lines that are exactly 'ok' are skipped.
The capture has one line for each message.

Exit status:
  0  the whole capture was written
  2  the command line has no form
  3  the script could not be read or is not well formed, or the output could not be written
  4  out of memory";

/// The command line: the program's commands with their words.
pub fn command<'a>(alloc: Global) -> Result<Command<'a>, AllocError> {
    let mut command = Command::new(alloc, "nbdcheck")
        .about("Checks recorded sessions between an NBD client and an NBD server")
        .version("0.1.0")
        .subcommand_required(true);
    for line in COMMANDS.split("\n") {
        command = with_command(command, of_line(alloc, line))?;
    }
    Ok(command)
}

// The command with one of its own.
fn with_command<'a>(
    command: Command<'a>,
    other: Result<Command<'a>, AllocError>,
) -> Result<Command<'a>, AllocError> {
    command.subcommand(other?)
}

// The command of a line, with its words.
fn of_line<'a>(alloc: Global, line: &'static str) -> Result<Command<'a>, AllocError> {
    let name = column(line, 0);
    let mut command = Command::new(alloc, name)
        .about(column(line, 2))
        .after_help(help_of(name));
    for key in column(line, 1).split(" ") {
        command = with_word(command, argument(alloc, word(key)))?;
    }
    Ok(command)
}

// What a line has in this column, from 0.
fn column(line: &'static str, number: usize) -> &'static str {
    line.split(" | ").nth(number).unwrap_or(NONE)
}

// The line of the word with this key.
fn word(key: &str) -> &'static str {
    for line in WORDS.split("\n") {
        if column(line, 0) == key {
            return line;
        }
    }
    ""
}

// What help says of a command behind its words.
fn help_of(command: &str) -> &'static str {
    match command {
        "check" => CHECK_HELP,
        "explain" => EXPLAIN_HELP,
        "order" => ORDER_HELP,
        "contents" => CONTENTS_HELP,
        "show" => SHOW_HELP,
        "lint" => LINT_HELP,
        _ => MAKE_HELP,
    }
}

// The command with one more word.
fn with_word<'a>(
    command: Command<'a>,
    argument: Result<Arg<'a>, AllocError>,
) -> Result<Command<'a>, AllocError> {
    command.arg(argument?)
}

// A word as clap takes it.
fn argument<'a>(alloc: Global, word: &'static str) -> Result<Arg<'a>, AllocError> {
    let name = column(word, 1);
    let argument = formed(Arg::new(alloc, name), name, column(word, 2)).help(column(word, 5));
    excluding(with_usual(argument, column(word, 3)), column(word, 4))
}

// The argument with what stands for it where it is not said, if something does.
fn with_usual<'a>(argument: Arg<'a>, usual: &'static str) -> Arg<'a> {
    if usual == NONE {
        argument
    } else {
        argument.default_value(usual)
    }
}

// The argument, which has no meaning beside these words, if there are some.
fn excluding<'a>(argument: Arg<'a>, others: &'static str) -> Result<Arg<'a>, AllocError> {
    let mut argument = argument;
    for other in others.split(" ") {
        if other != NONE {
            argument = argument.conflicts_with(other)?;
        }
    }
    Ok(argument)
}

// The argument in the form of what it takes.
fn formed<'a>(argument: Arg<'a>, name: &'a str, takes: &'static str) -> Arg<'a> {
    match takes {
        "FILE" => argument.required(true),
        "FILE?" => argument,
        NONE => argument.long(name).action(ArgAction::SetTrue),
        "RULE" => argument
            .long(name)
            .value_name(takes)
            .action(ArgAction::Append),
        _ => argument.long(name).value_name(takes),
    }
}
