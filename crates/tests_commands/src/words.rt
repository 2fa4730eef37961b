//! Arguments that are in a command's form, and whether they ask for threads.
use crate::tool::words_of;
use std::alloc::Global;
use wiz_words::read::read_command;

/// Arguments a line that ask for threads.
const THREADED: &str = "\
record P Q A
check P Q
races P Q
races P Q --orders=A
advise P Q 3
replay L
replay --break=1:1 L --program G
replay -
replay -- --serial
replay L --program -
waits P Q
picture P Q F
picture P --trace Q F
";

/// Arguments a line that ask for none.
const ALONE: &str = "\
record --serial P Q A
record P --order F Q A
record P Q A --order=F
check P Q --serial
races P Q --serial
races --order=F P Q
races --orders A P --order=F Q
advise --serial P Q 1
advise P Q --order F 64
demo 1 8
demo 0 1
demo 2147483647 1000
replay L --serial
replay --serial --break 63:999999 L
show L
show -- L
stats L
convert L M
convert --text L M
refine L Q A
refine -- - --serial A
join L M F
join L L L
join L -- --text F
diff L M
diff -- L --serial
waits P --serial Q
waits --order F P Q
picture P Q F --trace --serial
picture P Q --order=F -- --trace
watch L 63 x
watch --serial L 0 -- -
at L 1:1 --program G
at L 63:999999 --serial
where L 63.999999
explore P Q A
explore P Q A --most 1 --polls 1
explore --polls=1000 P --under=F Q --most=1000000 A
";

/// Whether arguments ask for threads, where they are a command's.
pub fn asks_for_threads(alloc: Global, words: &[&str]) -> Option<bool> {
    Some(read_command(alloc, words).ok()??.is_threaded())
}

/// The same of the arguments of a line.
fn line_asks_for_threads(alloc: Global, line: &str) -> Option<bool> {
    asks_for_threads(alloc, &words_of(alloc, line)?)
}

#[test]
fn words_in_form_ask_for_threads_or_for_none(rt: HostRuntime) {
    for line in THREADED.lines() {
        assert_eq!(rt;
            line_asks_for_threads(rt.alloc(), line),
            Some(true),
            "{line}"
        );
    }
    for line in ALONE.lines() {
        assert_eq!(rt;
            line_asks_for_threads(rt.alloc(), line),
            Some(false),
            "{line}"
        );
    }
}
