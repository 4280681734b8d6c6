// Forecasts as bits: a double is compared with the stored one by its bits, so that a zero with a sign is another double.
use call_files::double_at;

// Makes a forecast, and answers its number and the bits of its doubles: what is to be paid, what is to be received, and the difference.
pub fn answer(run: &[u8], account: u32, date: u32) -> (u16, [u64; 3]) {
    let f = forecast::forecast(run, account, date);
    let bits = [
        f.cash.pay.to_bits(),
        f.cash.receive.to_bits(),
        f.cash.difference.to_bits(),
    ];
    (f.number, bits)
}

// The bits of the three doubles at a place of a file.
pub fn bits_at(t: &[u8], at: usize) -> [u64; 3] {
    [
        double_at(t, at),
        double_at(t, at.saturating_add(8)),
        double_at(t, at.saturating_add(16)),
    ]
}
