//! Cluster files.

// Process `a` receives from each other one and puts out what came; each other one sends its number to `a`.
pub const GATHERS: &str =
    "program g 512 00400893 00000073 10000493 02051A63 FFF58913 04090263 10000513 00400593 00200893 00000073 00050593 10000513 00300893 00000073 FFF90913 FD9FF06F 00A48023 00000513 10000593 00100613 00100893 00000073 00000513 00000893 00000073\n";

// Process `a` receives, and then as many messages more as the number of the sender says; each other one sends its number to `a`.
pub const COUNTS: &str =
    "program g 512 00400893 00000073 10000493 02051A63 10000513 00400593 00200893 00000073 00058913 02090A63 10000513 00400593 00200893 00000073 FFF90913 FE9FF06F 00A48023 00000513 10000593 00100613 00100893 00000073 00000513 00000893 00000073\n";

// A message goes round.
pub const RING: &str =
    "program ring 512 00400893 00000073 00050293 00150313 00B36463 00000313 00600393 00029C63 00100893 00030513 10000593 00400613 00000073 00200893 10000513 00400593 00000073 10002403 00140413 10802023 00300893 10000513 00400593 00000073 00100893 00030513 10000593 00400613 00000073 FFF38393 FA039EE3 00000893 00040513 00000073\n\
proc p0 ring\n\
proc p1 ring\n\
proc p2 ring\n\
proc p3 ring\n\
proc p4 ring\n\
proc p5 ring\n\
proc p6 ring\n\
proc p7 ring\n\
kill p3 3\n\
kill p5 5\n\
flush 2\n\
checkpoint 3\n";

// What comes of it that two messages race to one process, by the order in which they are declined.
pub const TWO: &str =
    "text 1 runs 1 sha256 08a5c19b0ac00e4fd90d4e2bf2237958c518185b93c892c86f6b3caedea0af3a\n\
text 2 runs 1 sha256 68293bd02aa7037b52b8a520a78e03d1ac845b0b85e9be5ee268c6b67e9f2951\n\
texts 1 and 2 differ at output 0 of a: 01 in interval 1, 02 in interval 1\n\
2 texts in all 2 runs\n";

// The same with the bytes of outputs as text: 01 and 02 are no printable characters.
pub const TWO_AS_TEXT: &str =
    "text 1 runs 1 sha256 08a5c19b0ac00e4fd90d4e2bf2237958c518185b93c892c86f6b3caedea0af3a\n\
text 2 runs 1 sha256 68293bd02aa7037b52b8a520a78e03d1ac845b0b85e9be5ee268c6b67e9f2951\n\
texts 1 and 2 differ at output 0 of a: \"\\001\" in interval 1, \"\\002\" in interval 1\n\
2 texts in all 2 runs\n";

pub const SIX: &str =
    "text 1 runs 1 sha256 ee496bb7ab4085016bbb842bd8279bdd1471b4a6e486223ffc24d2921a17f212\n\
text 2 runs 1 sha256 91271fb2bc4ce90eef9b71513c9a6b777dcc5955cf56e3418a461e8c73366e66\n\
text 3 runs 1 sha256 85633e8709b34f4cb504302b98cd3f25633093513c71f4b49f4b9a1d7a186d62\n\
text 4 runs 1 sha256 92da7ce20aaa9b4dc3417adf48d433174a8e6264501bb8df98a40dd3c8ccd2b2\n\
text 5 runs 1 sha256 1bf8add7ce27e69fe0eba86dfa399dc9b59bd398f3f4991eca5356eb28fbc51b\n\
text 6 runs 1 sha256 ff985b7b92e94e31203128cc2d479fd8ef8b9df0f238cf5a8fd59c6f1ecf1a9e\n\
texts 1 and 2 differ at output 1 of a: 02 in interval 2, 03 in interval 2\n\
texts 1 and 3 differ at output 0 of a: 01 in interval 1, 02 in interval 1\n\
texts 1 and 4 differ at output 0 of a: 01 in interval 1, 02 in interval 1\n\
texts 1 and 5 differ at output 0 of a: 01 in interval 1, 03 in interval 1\n\
texts 1 and 6 differ at output 0 of a: 01 in interval 1, 03 in interval 1\n\
6 texts in all 6 runs\n";

// One order in which all end, and one in which `a` waits for ever.
pub const LOCK: &str =
    "text 1 runs 1 sha256 e5ad7c553470425000893f458636341eec338bd1effd7d5d2742788bb336c302\n\
text 2 runs 1 sha256 2624e63bdef41cd193dc83f8e6c193532b8bd7126e7c51aee027507a4a4c72b9 waiting a\n\
texts 1 and 2 differ at the end of a: ended 0, waiting\n\
2 texts in all 2 runs\n";
