//! The texts that cases name.

/// The spectrum of glucose.
const GLUCOSE: &[u8] = b"BEGIN IONS\n\
    TITLE=Glucose\n\
    PEPMASS=181.0707\n\
    CHARGE=1+\n\
    163.0601 1000\n\
    END IONS\n";

/// Its document under the profile of sugars, worked out by hand.
const SOLVED: &[u8] = b"fragdoc 1\n\
    spectrum 1 Glucose\n\
    lists 2\n\
    list 1810707000 0 1\n\
    f C6H12O6\n\
    list 1630601000 1000000000 1\n\
    f C6H10O5\n\
    entries 1\n\
    entry C6H12O6 360 62 62 optimal 1\n\
    r 0 0 1 C6H10O5 H2O 52\n\
    table 2\n\
    t 0 52\n\
    t 0\n\
    done\n\
    end clean\n";

/// The text of a name, and no bytes where it is none.
pub fn text_named(name: Option<&str>) -> &'static [u8] {
    match name {
        Some("water") => b"BEGIN IONS\nPEPMASS=19.0178410\nEND IONS\n",
        Some("glucose") => GLUCOSE,
        Some("stray") => b"END IONS\n",
        Some("sugars") => b"[elements]\nC = 100\nH = 200\nO = 40\n",
        Some("clean") => b"fragdoc 1\nend clean\n",
        Some("solved") => SOLVED,
        _ => b"",
    }
}
