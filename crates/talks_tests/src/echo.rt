//! A small protocol: a message is a byte that says how long it is, and a text. It wants what the text asks for, and says two bytes of the answer.

ghost use Rattle.std.specs.Prelude.{◌≡◌, ◌++◌, slice_index, ℕ, List, [], ◌∷◌, drop, false, IfOk, IfSome, OnOk, OnErr};
ghost use Rattle.talks.specs.declared.want.Want.{Want as TheWant};
ghost use Rattle.talks_tests.specs.Echoes.{front_of, IsAsked, HearsText, letter_of, tag_letter, description_letter, digit_of, count_digit, said_of};

use crate::line::BeginsAnew;
use sql_ast::description::StatementDescription;
use sql_types::answer::Answer;
use sql_types::event::Event;
use sql_types::tag::Tag;
use sql_types::text::Text;
use std::alloc::{AllocError, Global};
use talks::talk::{MessageFront, Talk};
use talks::want::{Reply, SessionEntry, Want, Way};

/// The conversation by this protocol.
#[derive(Drop)]
pub struct Echo {
    pub alloc: Global,
    pub want: Want,
}

impl Echo {
    /// A conversation that begins.
    pub fn new(alloc: Global) -> Echo {
        Echo {
            alloc,
            want: Want::Message,
        }
    }

    // Says that it has not understood, and wants its end.
    fn refuse(&mut self, out: &mut Vec<u8>) -> Result<(), AllocError>
        ensures ok { OnOk result ((out.new.items ≡ out.old.items ++ 33 ∷ []) × (self.new.want ≡ TheWant.End false)) }
        ensures err { OnErr result ((self.new.want ≡ TheWant.OutOfMemory) × (out.new.items ≡ out.old.items)) }
    {
        match out.extend_from_slice(b"!") {
            Ok(()) => {
                self.want = Want::End { late: false };
                Ok(())
            }
            Err(error) => {
                self.want = Want::OutOfMemory;
                Err(error)
            }
        }
    }
}

impl BeginsAnew for Echo {
    fn begin(&mut self) {
        self.want = Want::Message;
    }
}

impl Talk for Echo {
    ghost use Rattle.std.specs.Prelude.{◌≡◌, [], ◌∷◌, false, None};
    ghost use Rattle.talks_tests.specs.FrontLaws.{front_more, bad_more};

    ghost starts = { λ t. t.want ≡ TheWant.Message };

    ghost wants = { λ t. t.want };

    ghost front = { λ t bytes. front_of bytes };

    ghost hears = { λ t message said u. HearsText message said u.want };

    ghost rejects = { λ t said u. (said ≡ 33 ∷ []) × (u.want ≡ TheWant.End false) };

    ghost learns = { λ t reply said u. (said ≡ said_of reply) × (u.want ≡ TheWant.Message) };

    ghost comes_as = { λ t. None };

    ghost front_more = { λ t bytes more n is. front_more bytes more n is };

    ghost bad_more = { λ t bytes more is. bad_more bytes more is };

    fn want(&self) -> &Want {
        &self.want
    }

    fn comes_as(&self) -> Option<&str> {
        None
    }

    fn front(&self, bytes: &[u8]) -> MessageFront {
        front_in(bytes)
    }

    fn hear(&mut self, message: &[u8], out: &mut Vec<u8>) -> Result<(), AllocError> {
        match asked(self.alloc, message) {
            Ok(Some(want)) => {
                self.want = want;
                Ok(())
            }
            Ok(None) => self.refuse(out),
            Err(error) => {
                self.want = Want::OutOfMemory;
                Err(error)
            }
        }
    }

    fn reject(&mut self, out: &mut Vec<u8>) -> Result<(), AllocError> {
        self.refuse(out)
    }

    fn learn(&mut self, reply: Reply, out: &mut Vec<u8>) -> Result<(), AllocError> {
        let said = [letter(&reply), digit(&reply)];
        match out.extend_from_slice(&said) {
            Ok(()) => {
                self.want = Want::Message;
                Ok(())
            }
            Err(error) => {
                self.want = Want::OutOfMemory;
                Err(error)
            }
        }
    }

    fn give_up(&mut self) {
        self.want = Want::OutOfMemory;
    }
}

// What stands at the front of some bytes.
fn front_in(bytes: &[u8]) -> MessageFront
    ensures { result ≡ front_of bytes.now }
{
    match bytes.first() {
        None => MessageFront::Nothing,
        Some(first) => {
            let size = usize::from(*first);
            if size == 0 {
                MessageFront::Bad
            } else if size < bytes.len() {
                MessageFront::Whole(size + 1)
            } else {
                MessageFront::Nothing
            }
        }
    }
}

// What a message asks for, if its text is one.
fn asked(alloc: Global, message: &[u8]) -> Result<Option<Want>, AllocError>
    ensures { IfOk result (λ o. IfSome o (λ w. IsAsked (drop 1 message.now) w)) }
{
    if message.is_empty() {
        return Ok(None);
    }
    match str::from_utf8(&message[1..]) {
        Ok(text) => {
            let copy = Text::from_str(alloc, text)?;
            Ok(Some(asked_by(copy)))
        }
        Err(_) => Ok(None),
    }
}

// What a text asks for, by its first letter.
fn asked_by(text: Text) -> Want
    ensures { IsAsked text result }
{
    match first_letter(&text) {
        b'o' => {
            let entry = SessionEntry {
                way: Way::Anyone,
                no_superuser: false,
                shown: None,
            };
            Want::Open {
                session: 1,
                login: text,
                entry,
            }
        }
        b'c' => Want::Event(Event::Close { session: 1 }),
        b'?' => Want::Standing { session: 1 },
        b'd' => Want::Description { session: 1, text },
        _ => Want::Event(Event::Statement { session: 1, text }),
    }
}

/// The first letter of a text.
pub fn first_letter(text: &Text) -> u8
    ensures { result ≡ slice_index text.now 0 }
{
    let bytes = text.as_str().as_bytes();
    if bytes.is_empty() {
        return 0;
    }
    bytes[0]
}

// The letter of an answer.
fn letter(reply: &Reply) -> u8
    ensures { result ≡ letter_of reply.now }
{
    match reply {
        Reply::Answer(
            Answer::Done {
                tag,
                count: _,
                warning: _,
            },
        ) => letter_of_tag(*tag),
        Reply::Answer(Answer::Rows(_)) => b'=',
        Reply::Answer(Answer::Refused(_)) => b'!',
        Reply::Standing(None) => b'-',
        Reply::Standing(Some(_)) => b'+',
        Reply::Description(description) => letter_of_description(description),
        Reply::Verifier(_) => b'v',
    }
}

fn letter_of_description(description: &StatementDescription) -> u8
    ensures { result ≡ description_letter description.now }
{
    match description {
        StatementDescription::Rows(_) => b'=',
        StatementDescription::NoRows => b'n',
        StatementDescription::Refused(_) => b'!',
    }
}

fn letter_of_tag(tag: Tag) -> u8
    ensures { result ≡ tag_letter tag }
{
    match tag {
        Tag::Open => b'o',
        Tag::Close => b'c',
        Tag::Begin => b'b',
        Tag::Commit => b'm',
        _ => b's',
    }
}

// The last digit of its count.
fn digit(reply: &Reply) -> u8
    ensures { result ≡ digit_of reply.now }
{
    match reply {
        Reply::Answer(
            Answer::Done {
                tag: _,
                count,
                warning: _,
            },
        ) => digit_of_count(*count),
        _ => b'.',
    }
}

fn digit_of_count(count: Option<u64>) -> u8
    ensures { result ≡ count_digit count }
{
    match count {
        None => b'.',
        Some(n) => 48 + (n % 10) as u8,
    }
}
