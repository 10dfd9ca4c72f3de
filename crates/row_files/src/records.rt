//! GDSII records as text.
//!
//! A record is its name and its values, and stands on a line of its own or is parted from the next by `;`. Numbers have a space or a
//! comma between them, and a text goes on to the record's end: `LAYER 1; XY 0,0 10,0; STRNAME TOP`. A number may be a sum of
//! products: `4*3+2`. Reals are whole numbers below 4,096, and a text is filled up to an even number of bytes. Any body can be given
//! as `hex` with its bytes: `MAG hex 4080000000000000`. A number after a slash is the form of the data: `LAYER/3 1`. Bytes that are
//! no record are `bytes 00067F`, and `fill 2048 00` is the same bytes so many times.

use gds_records::kind_name;
use row_tables::bytes_of;
use std::alloc::Global;

/// The forms of the data by the number of the kind, as the manual of GDSII lists them.
const FORMS: &[u8; 60] = b"226502600000022330620021061550066226001000226023330010260262";

/// The bytes of these records, of which none is too long.
pub fn records_of(alloc: Global, text: &str) -> Option<Vec<u8>> {
    let mut records = Bytes::new(alloc);
    for record in text.split(['\n', ';']) {
        records.put_record(record.trim());
    }
    if records.is_wrong {
        None
    } else {
        Some(records.bytes)
    }
}

/// Bytes that are made piece by piece, and whether one of the pieces could not be.
#[derive(Drop)]
struct Bytes {
    bytes: Vec<u8>,
    is_wrong: bool,
}

impl Bytes {
    /// No bytes.
    fn new(alloc: Global) -> Bytes {
        Bytes {
            bytes: Vec::new(alloc),
            is_wrong: false,
        }
    }

    /// Appends bytes.
    fn put(&mut self, bytes: &[u8]) {
        if self.bytes.extend_from_slice(bytes).is_err() {
            self.is_wrong = true;
        }
    }

    /// Appends a record, or the bytes that stand in its place.
    fn put_record(&mut self, record: &str) {
        let (name, values) = record.split_once(' ').unwrap_or((record, ""));
        match name {
            "" => {}
            "bytes" => self.put_digits(1, values),
            "fill" => self.put_fill(values),
            _ => self.put_named(name, values),
        }
    }

    /// Appends the bytes with these hexadecimal digits, so many times.
    fn put_digits(&mut self, times: i64, digits: &str) {
        match bytes_of(*self.bytes.allocator(), digits) {
            Some(piece) => {
                for _ in 0..times {
                    self.put(piece.as_slice());
                }
            }
            None => self.is_wrong = true,
        }
    }

    /// Appends the bytes that the second value says as often as the first one says.
    fn put_fill(&mut self, values: &str) {
        let (times, digits) = values.split_once(' ').unwrap_or((values, "-"));
        let times = self.number_of(times);
        self.put_digits(times, digits);
    }

    /// Appends the record with this name and these values.
    fn put_named(&mut self, name: &str, values: &str) {
        let Some((kind, form)) = head_of(name) else {
            self.is_wrong = true;
            return;
        };
        let mut body = Bytes::new(*self.bytes.allocator());
        body.put_values(form, values);
        let length = u16::try_from(body.bytes.len().saturating_add(4)).unwrap_or(0);
        let [high, low] = length.to_be_bytes();
        self.put(&[high, low, kind, form]);
        self.put(body.bytes.as_slice());
        if length == 0 || body.is_wrong {
            self.is_wrong = true;
        }
    }

    /// Appends the body with these values, whose data have this form. A text is followed by a zero byte if its length is odd.
    fn put_values(&mut self, form: u8, values: &str) {
        if let Some(digits) = values.strip_prefix("hex") {
            self.put_digits(1, digits);
        } else if form == 6 {
            self.put(values.as_bytes());
            if values.len() % 2 == 1 {
                self.put(&[0]);
            }
        } else {
            for number in values.split([' ', ',']) {
                self.put_number(form, number);
            }
        }
    }

    /// Appends a number in this form, if there is one.
    fn put_number(&mut self, form: u8, number: &str) {
        if number.is_empty() {
            return;
        }
        let number = self.number_of(number);
        let digits = number.to_be_bytes();
        match form {
            1 | 2 if (-32_768..65_536).contains(&number) => self.put(&digits[6..]),
            3 if i32::try_from(number).is_ok() => self.put(&digits[4..]),
            5 => self.put(&real_of(number)),
            _ => self.is_wrong = true,
        }
    }

    /// The number that a sum of products is.
    fn number_of(&mut self, sum: &str) -> i64 {
        let mut number = 0i64;
        for product in sum.split('+') {
            number = number.saturating_add(self.product_of(product));
        }
        number
    }

    /// The number that a product is.
    fn product_of(&mut self, product: &str) -> i64 {
        let mut number = 1i64;
        for factor in product.split('*') {
            match factor.parse::<i64>() {
                Ok(factor) => number = number.saturating_mul(factor),
                Err(_) => self.is_wrong = true,
            }
        }
        number
    }
}

/// The kind of the record with this name, and the form of its data.
fn head_of(name: &str) -> Option<(u8, u8)> {
    let (name, form) = name.split_once('/').unwrap_or((name, ""));
    for kind in 0u8..60 {
        if kind_name(kind) == Some(name) {
            let usual = FORMS[kind as usize] & 7;
            return Some((kind, form.parse().unwrap_or(usual)));
        }
    }
    None
}

/// The eight-byte real that is the whole number: a sign, an exponent of 16 that is counted from 64, and a fraction of 56 bits.
fn real_of(number: i64) -> [u8; 8] {
    if number == 0 {
        return [0; 8];
    }
    let size = number.unsigned_abs();
    let digits = size.leading_zeros().abs_diff(67) / 4;
    let sign = if number < 0 { 0x80 } else { 0 };
    let mut bytes = size
        .rotate_right(digits.wrapping_mul(4).wrapping_add(8))
        .to_be_bytes();
    bytes[0] = sign | 0x40 | digits as u8;
    bytes
}
