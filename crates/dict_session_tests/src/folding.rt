// What is found without regard to case, past ASCII too.
use crate::sessions::Row;

const SEASON: &str =
    "150 1 definitions retrieved\r\n151 \"ÉTÉ\" ete \"Mots\"\r\nsaison\r\n.\r\n250 ok\r\n";

const ONE_SEASON: &str = "152 1 matches found\r\nete \"ÉTÉ\"\r\n.\r\n250 ok\r\n";

const STREET: &str = "152 1 matches found\r\nete \"Straße\"\r\n.\r\n250 ok\r\n";

const SIGMAS: &str = "152 1 matches found\r\nete \"ΣΑΣ\"\r\n.\r\n250 ok\r\n";

const DONT: &str = "152 1 matches found\r\nete \"don’t\"\r\n.\r\n250 ok\r\n";

const AN_N: &str = "152 1 matches found\r\nete \"ŉ\"\r\n.\r\n250 ok\r\n";

const AN_I: &str = "152 1 matches found\r\nete \"İ\"\r\n.\r\n250 ok\r\n";

const AN_A: &str = "152 1 matches found\r\nete \"Ⱥ\"\r\n.\r\n250 ok\r\n";

const HINDI: &str = "152 1 matches found\r\nete \"हिन्दी\"\r\n.\r\n250 ok\r\n";

const NO_MATCH: &str = "552 no match\r\n";

// The accents of the third query are characters of their own; the `ı` of the twelfth is a letter of its own; the last
// query has no virama.
pub(crate) static ROWS: [Row; 14] = [
    ("DEFINE ete été\r\n", false, SEASON),
    ("MATCH ete suffix é\r\n", false, ONE_SEASON),
    ("MATCH ete exact e\u{301}te\u{301}\r\n", false, NO_MATCH),
    ("MATCH ete exact STRASSE\r\n", false, STREET),
    ("MATCH ete exact straße\r\n", false, STREET),
    ("MATCH ete exact σας\r\n", false, SIGMAS),
    ("MATCH ete exact σασ\r\n", false, SIGMAS),
    ("MATCH ete exact ΣΑΣ\r\n", false, SIGMAS),
    ("MATCH ete exact \"DON'T\"\r\n", false, DONT),
    ("MATCH ete exact ʼN\r\n", false, AN_N),
    ("MATCH ete exact I\r\n", false, AN_I),
    ("MATCH ete exact ı\r\n", false, NO_MATCH),
    ("MATCH ete exact ⱥ\r\n", false, AN_A),
    ("MATCH ete exact हिनदी\r\n", false, HINDI),
];
