// What is read of the bytes of a line: its shape, and the header and the entries of a data telegram.
ghost use Rattle.std.specs.Prelude.{◌≡◌, ◌≤◌, length};
ghost use Rattle.base_rules.specs.Answers.{within};
ghost use Rattle.base_rules.specs.Shown.{shown};
ghost use Rattle.mbus_rules.specs.Lines.{read_body, read_data};
ghost use Rattle.mbus_rules.specs.Outlines.{outlined};
ghost use Rattle.mbus_entries.specs.Walking.{listed};
ghost use Rattle.mbus_shape.specs.Shapes.{asked_of, frame_by};
ghost use Rattle.mbus_reading.specs.Bodies.{body_of};

use base_rules::Refusal;
use mbus_entries::{Entries, read_entries};
use mbus_fields::headers::{header_of, wrong_header};
use mbus_rules::{Kind, Outline, Request, Telegram};
use mbus_shape::shape_of;
use mbus_telegrams::bare;

// 10 to 16, of what stands behind CI: the entries, or the number of a refusal. (That the twelve bytes of a header are there is asked by three
// functions, of which two hand it on to this one; a struct of header and rest would be made by those two just to be taken apart here.)
fn body_of(part: &[u8]) -> Result<Entries, Refusal>
    requires { 12 ≤ length part.now }
    ensures { result ≡ shown (within listed (body_of part.now)) }
{
    if wrong_header(&part[..12]) {
        return Err(Refusal::WRONG_HEADER);
    }
    read_entries(&part[12..])
}

// The outline of a data telegram.
fn outline_data(address: u8, part: &[u8]) -> Outline
    requires { 12 ≤ length part.now }
    ensures { result ≡ outlined (read_data address part.now) }
{
    match body_of(part) {
        Ok(_) => Outline::Data(address),
        Err(refused) => Outline::Refused(refused.0),
    }
}

// The rules 4 to 16 by the bytes and the sum of all of them, without a telegram.
pub fn outline_in(bytes: &[u8], sum: u8) -> Outline
    ensures { result ≡ outlined (frame_by sum read_body bytes.now) }
{
    let shape = shape_of(bytes, sum);
    match shape {
        Outline::Data(address) => outline_data(address, &bytes[7..bytes.len() - 2]),
        Outline::Refused(n) => Outline::Refused(n),
        Outline::Ack => Outline::Ack,
        Outline::Asks(request) => Outline::Asks(request),
    }
}

// The telegram of a request.
fn asked(request: Request) -> Telegram
    ensures { result ≡ asked_of request }
{
    match request {
        Request::Read(address) => bare(Kind::Read, address, 0),
        Request::Enter(address, method) => bare(Kind::Enter, address, method),
        Request::Leave(address) => bare(Kind::Leave, address, 0),
    }
}

// The header and the entries of a data telegram.
fn read_data(address: u8, part: &[u8]) -> Result<Telegram, Refusal>
    requires { 12 ≤ length part.now }
    ensures { result ≡ shown (read_data address part.now) }
{
    let body = body_of(part)?;
    let header = header_of(&part[..12]);
    let entries = body.entries;
    Ok(Telegram {
        kind: Kind::Data,
        address,
        method: 0,
        header,
        count: body.count,
        entries,
    })
}

// The rules 4 to 16 by the bytes and the sum of all of them.
pub(crate) fn read_in(bytes: &[u8], sum: u8) -> Result<Telegram, Refusal>
    ensures { result ≡ shown (frame_by sum read_body bytes.now) }
{
    let shape = shape_of(bytes, sum);
    match shape {
        Outline::Data(address) => read_data(address, &bytes[7..bytes.len() - 2]),
        Outline::Refused(n) => Err(Refusal(n)),
        Outline::Ack => Ok(bare(Kind::Ack, 0, 0)),
        Outline::Asks(request) => Ok(asked(request)),
    }
}
