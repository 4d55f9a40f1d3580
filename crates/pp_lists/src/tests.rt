//! Notes come back in the order in which they were pushed.
use crate::Notes;
use cake_base::{Bytes, Note, Place};
use std::test::Fail;

/// The line and the text of each note.
const NOTES: [(u32, &[u8]); 3] = [(1, b"first"), (7, b""), (7, b"last")];

#[test]
fn notes_are_kept_in_order(rt: HostRuntime) -> Result<(), Fail> {
    let alloc = rt.alloc();
    let mut notes = Notes::new(alloc);
    for (line, text) in &NOTES {
        let place = Place {
            file: 0,
            line: *line,
            column: 1,
            order: 0,
        };
        let text = Bytes::of(alloc, text)?;
        notes.push(Note { place, text })?;
    }
    assert_eq!(rt; notes.count(), NOTES.len());
    for (at, (line, text)) in NOTES.iter().enumerate() {
        let Some(note) = notes.get(at) else {
            return Err(Fail::new("a note is missing"));
        };
        assert_eq!(rt; note.place.line, *line);
        assert_eq!(rt; note.text.as_slice(), *text);
    }
    Ok(())
}
