// Texts near to sentences.
fn show(text: &[u8]) {
    crate::samples::write_both(text, b"\n");
}

// A sentence; then texts that are none: a leading zero, a number that fits no word, another label, a field too many, one too few, a number
// that the call cannot return, the wrong text for a number, a number that has no text, a byte too many, one too few, no byte.
pub fn show_odd() {
    show(
        b"Write refused (14): another writer holds the line. Writer 0, page 3, line 5, held by writer 2.",
    );
    show(
        b"Write refused (14): another writer holds the line. Writer 00, page 3, line 5, held by writer 2.",
    );
    show(
        b"Write refused (14): another writer holds the line. Writer 18446744073709551616, page 3, line 5, held by writer 2.",
    );
    show(
        b"Write refused (14): another writer holds the line. Writer 0. Page 3, line 5, held by writer 2.",
    );
    show(b"Commit refused (13): the writer is not open. Writer 0, page 3.");
    show(b"Write refused (14): another writer holds the line. Writer 0, page 3, line 5.");
    show(b"Begin refused (14): another writer holds the line. Writer 0, held by writer 2.");
    show(b"Write refused (13): another writer holds the line. Writer 0, page 3, line 5.");
    show(b"Free slot refused (31): .");
    show(b"Mount refused (2): the layout of the image is unknown. ");
    show(b"Mount refused (2): the layout of the image is unknown");
    show(b"");
}
