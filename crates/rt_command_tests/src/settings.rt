//! The ranges of the settings.

use crate::expect::expect_eq;
use rt_command::Settings;

#[test]
fn settings_have_ranges(rt: HostRuntime) {
    for (fanout, max_entries, is_allowed) in [
        (2, 1, true),
        (64, 16_777_216, true),
        (1, 1, false),
        (65, 1, false),
        (2, 0, false),
        (2, 16_777_217, false),
    ] {
        let settings = Settings::new(true, fanout, max_entries);
        expect_eq(&rt, settings.is_some(), is_allowed);
        if let Some(settings) = settings {
            expect_eq(&rt, settings.header(), true);
            expect_eq(&rt, settings.fanout(), fanout);
            expect_eq(&rt, settings.max_entries(), max_entries);
        }
    }
}
