// The sheet of a session file, piece by piece: the card's line first, then a piece for each record, into a lent page.
#![tactic(auto)]

ghost use Rattle.std.specs.Prelude.{◌≡◌, List, ℕ, ◌<◌, ◌≤◌};
ghost use Rattle.session.specs.Moves.{rest_of, vector_of};
ghost use Rattle.sheet_pieces.specs.Pieces.{fresh, piece_of, written, Standing, is_over};
ghost use Rattle.sheet_pieces.specs.Pieces.{card_piece, rest_piece, vector_piece, entry_piece};
ghost use Rattle.sheet_pieces.specs.Inner.Comes.{Comes};
ghost use Rattle.sheet_text.specs.Walk.{entry_at};
ghost use Rattle.sheet_pieces.specs.declared.Stage.TheVariants.{Going};

use card::Session;
use rule::{Answer, Refusal};
use sheet_text::Entry;

// How a sheet stands: nothing is written; the card is loaded; all is written.
#[derive(Clone, Copy)]
pub enum Stage {
    Fresh,
    Going,
    Over,
}

// A sheet between two pieces: the session and its card's depth, the place of the next record, and the number of vectors so far.
// `Standing` stays a clause and no ghost field: `begin_promises`, `next_promises` and `AsksNothing` (demands/proofs/Results.antt) speak of it.
#[derive(Clone, Copy)]
pub struct Sheet {
    pub session: Session,
    pub depth: usize,
    pub at: usize,
    pub vectors: usize,
    pub stage: Stage,
}

// A sheet of which nothing is written yet.
pub fn begin() -> Sheet
    ensures { (result ≡ fresh) × Standing result }
{
    Sheet {
        session: card::empty(),
        depth: 0,
        at: 0,
        vectors: 0,
        stage: Stage::Fresh,
    }
}

// The card's piece: its line, and the place after it.
fn open_card(sheet: &mut Sheet, file: &[u8], out: &mut [u8; 20480]) -> Answer
    ensures { Comes (card_piece sheet.old file.now) sheet.old out.old result sheet.new out.new }
{
    if 65536 < file.len() {
        return Err(Refusal::NoRoom);
    }
    let at = sheet_text::card_end(file);
    let mut session = card::empty();
    card::load(&mut session, &file[..at])?;
    let depth = card::depth_of(&session);
    let length = sheet_text::put_card(out, &session, depth);
    *sheet = Sheet {
        session,
        depth,
        at,
        vectors: 0,
        stage: Stage::Going,
    };
    Ok(length)
}

// A rest prints nothing.
fn rest(sheet: &mut Sheet, v: &[u8], next: usize) -> Answer
    requires standing { Standing sheet.old }
    requires going { sheet.old.stage ≡ Going }
    ensures { (page : List ℕ) → Comes (rest_piece sheet.old next (rest_of sheet.old.session v.now)) sheet.old page result sheet.new page }
{
    session::rest(&mut sheet.session, v)?;
    sheet.at = next;
    Ok(0)
}

// A vector, counted, with a line a net.
fn vector(sheet: &mut Sheet, v: &[u8], next: usize, out: &mut [u8; 20480]) -> Answer
    requires standing { Standing sheet.old }
    requires going { (sheet.old.stage ≡ Going) × (sheet.old.at < next) }
    ensures { Comes (vector_piece sheet.old next (vector_of sheet.old.session v.now)) sheet.old out.old result sheet.new out.new }
{
    session::vector(&mut sheet.session, v)?;
    sheet.at = next;
    sheet.vectors += 1;
    Ok(sheet_text::put_vector(out, &sheet.session, sheet.depth, sheet.vectors))
}

// The piece of the record at the sheet's place.
fn next_record(sheet: &mut Sheet, file: &[u8], out: &mut [u8; 20480]) -> Answer
    requires standing { Standing sheet.old }
    requires going { sheet.old.stage ≡ Going }
    ensures { Comes (entry_piece sheet.old file.now (entry_at file.now sheet.old.at)) sheet.old out.old result sheet.new out.new }
{
    let from = sheet.at;
    match sheet_text::entry_at(file, from)? {
        None => {
            sheet.stage = Stage::Over;
            Ok(0)
        }
        Some(Entry::Rest(to)) => rest(sheet, &file[from + 4..to], to),
        Some(Entry::Vector(to)) => vector(sheet, &file[from + 4..to], to, out),
    }
}

// The piece of a sheet as it stands: the card's, a record's, or nothing more. A match and no closure: how a sheet stands is handed from piece to piece, and the
// theorem on all pieces speaks of it.
fn step(sheet: &mut Sheet, file: &[u8], out: &mut [u8; 20480]) -> Answer
    requires { Standing sheet.old }
    ensures { Comes (piece_of sheet.old file.now) sheet.old out.old result sheet.new out.new }
{
    match sheet.stage {
        Stage::Fresh => open_card(sheet, file, out),
        Stage::Going => next_record(sheet, file, out),
        Stage::Over => Ok(0),
    }
}

// The next piece of a file's sheet: its text at the front of the page, and how long it is. A refusal is a line, and the sheet ends.
pub fn next(sheet: &mut Sheet, file: &[u8], out: &mut [u8; 20480]) -> usize
    requires { Standing sheet.old }
    ensures { (record { piece = record { sheet = sheet.new; length = result }; page = out.new } ≡ written (piece_of sheet.old file.now) out.old)
        × Standing sheet.new × (result ≤ 20480) }
{
    match step(sheet, file, out) {
        Ok(length) => length,
        Err(why) => {
            sheet.stage = Stage::Over;
            sheet_text::put_refused(out, why)
        }
    }
}

// Whether nothing more is to be written.
pub fn is_over(sheet: &Sheet) -> bool
    ensures { result ≡ is_over sheet.now.stage }
{
    matches!(sheet.stage, Stage::Over)
}
