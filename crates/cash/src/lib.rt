// The cash forecast (document 02, card 10): its types here, the definitions in specs/, in whole numbers, and in proofs/ that each double of a
// forecast is exactly its whole number, with the laws of runs. The code is in the crate forecast.
#![tactic(auto)]

// The cents to pay, to receive, and receive less pay.
#[repr(C)]
#[derive(Clone, Copy, Debug)]
pub struct Cash {
    pub pay: f64,
    pub receive: f64,
    pub difference: f64,
}

// What a forecast answers: its number, and three zeros where that is not 0.
#[repr(C)]
#[derive(Clone, Copy, Debug)]
pub struct CashForecast {
    pub number: u16,
    pub cash: Cash,
}
