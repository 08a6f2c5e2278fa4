//! Texts of strings.

use paint_ops::Text;

/// Whether the bytes are a text, which has just these bytes.
fn is_text(bytes: &[u8]) -> bool {
    match Text::new(bytes) {
        Some(text) => text.bytes() == bytes,
        None => false,
    }
}

#[test]
fn texts_have_at_most_64_printable_bytes(rt: HostRuntime) {
    assert!(rt; is_text(b""), "nothing");
    assert!(rt;
        is_text(b" ") && is_text(b"~"),
        "the first and the last one"
    );
    assert!(rt; !is_text(b"A\x1f"), "below a space");
    assert!(rt; !is_text(b"\x7fA"), "above the last one");
    assert!(rt; is_text(&[65; 64]), "64 bytes");
    assert!(rt; !is_text(&[65; 65]), "65 bytes");
}
