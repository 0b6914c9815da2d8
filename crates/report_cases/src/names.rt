// Texts that are names, and texts that are none.
use study_model::Name;

#[test]
fn texts_of_names(rt: HostRuntime) {
    let table = [
        ("B1", true),
        ("a", true),
        ("A-z_0.9", true),
        ("abcdefghijklmnopqrstuvwxyz012345", true),
        ("", false),
        ("a b", false),
        ("a,b", false),
        ("\u{e9}", false),
        ("abcdefghijklmnopqrstuvwxyz0123456", false),
    ];
    for (text, is_name) in table {
        let found = match Name::parse(text.as_bytes()) {
            Some(name) => name.as_bytes() == text.as_bytes(),
            None => false,
        };
        assert_eq!(rt; found, is_name, "{text}");
    }
}
