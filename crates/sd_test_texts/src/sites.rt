/// The lines of examples/site.txt up to its PIDs, and these after them.
#[macro_export]
macro_rules! site_start {
    ($($lines:literal),* $(,)?) => {
        concat!(
            "height 3
master 000102030405060708090a0b0c0d0e0f101112131415161718191a1b1c1d1e1f
ca 1234
emm 496
ecm 497
",
            $($lines),*
        )
    };
}

/// All lines of examples/site.txt, and these after them.
#[macro_export]
macro_rules! site {
    ($($lines:literal),* $(,)?) => {
        $crate::site_start!("ecm-every 200\ncrypto-ecms 2\nperiod-cryptos 1\n", $($lines),*)
    };
}

/// All lines of examples/site.txt.
pub const SITE: &str = site!();
