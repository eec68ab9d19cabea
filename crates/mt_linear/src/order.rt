// Orders of finite fields, and their arithmetic by tables.
ghost use Rattle.std.specs.Prelude.{◌≡◌, ℕ, ◌<◌, ◌≢◌, ◌*◌, ◌+◌, length, slice_index, MatchOption};
ghost use Rattle.mt_linear.specs.Tables.{sums_of, products_of, negatives_of, inverses_of};
ghost use Rattle.mt_linear.specs.Field.{number_of, add_of, mul_of, neg_of, inv_of};
ghost use Rattle.mt_linear.specs.declared.order.Order.{Order};

/// The number of elements of a finite field. An element is a number below it.
///
/// Orders 2, 3, 5 and 7 count modulo the order. For 4, 8 and 9 an element's digits in base 2, 2 and
/// 3 are the coefficients of a polynomial, the constant lowest, modulo `x^2 + x + 1`, `x^3 + x + 1`
/// and `x^2 + 1`.
#[derive(Clone, Copy, PartialEq, Eq, Debug)]
pub enum Order {
    Q2,
    Q3,
    Q4,
    Q5,
    Q7,
    Q8,
    Q9,
}

static SUMS_2: [u8; 4] = [0, 1, 1, 0];

static PRODUCTS_2: [u8; 4] = [0, 0, 0, 1];

static NEGATIVES_2: [u8; 2] = [0, 1];

static INVERSES_2: [u8; 2] = [1, 1];

static SUMS_3: [u8; 9] = [0, 1, 2, 1, 2, 0, 2, 0, 1];

static PRODUCTS_3: [u8; 9] = [0, 0, 0, 0, 1, 2, 0, 2, 1];

static NEGATIVES_3: [u8; 3] = [0, 2, 1];

static INVERSES_3: [u8; 3] = [2, 1, 2];

static SUMS_4: [u8; 16] = [0, 1, 2, 3, 1, 0, 3, 2, 2, 3, 0, 1, 3, 2, 1, 0];

static PRODUCTS_4: [u8; 16] = [0, 0, 0, 0, 0, 1, 2, 3, 0, 2, 3, 1, 0, 3, 1, 2];

static NEGATIVES_4: [u8; 4] = [0, 1, 2, 3];

static INVERSES_4: [u8; 4] = [3, 1, 3, 2];

static SUMS_5: [u8; 25] = [
    0, 1, 2, 3, 4, 1, 2, 3, 4, 0, 2, 3, 4, 0, 1, 3, 4, 0, 1, 2, 4, 0, 1, 2, 3,
];

static PRODUCTS_5: [u8; 25] = [
    0, 0, 0, 0, 0, 0, 1, 2, 3, 4, 0, 2, 4, 1, 3, 0, 3, 1, 4, 2, 0, 4, 3, 2, 1,
];

static NEGATIVES_5: [u8; 5] = [0, 4, 3, 2, 1];

static INVERSES_5: [u8; 5] = [4, 1, 3, 2, 4];

static SUMS_7: [u8; 49] = [
    0, 1, 2, 3, 4, 5, 6, 1, 2, 3, 4, 5, 6, 0, 2, 3, 4, 5, 6, 0, 1, 3, 4, 5, 6, 0, 1, 2, 4, 5, 6, 0,
    1, 2, 3, 5, 6, 0, 1, 2, 3, 4, 6, 0, 1, 2, 3, 4, 5,
];

static PRODUCTS_7: [u8; 49] = [
    0, 0, 0, 0, 0, 0, 0, 0, 1, 2, 3, 4, 5, 6, 0, 2, 4, 6, 1, 3, 5, 0, 3, 6, 2, 5, 1, 4, 0, 4, 1, 5,
    2, 6, 3, 0, 5, 3, 1, 6, 4, 2, 0, 6, 5, 4, 3, 2, 1,
];

static NEGATIVES_7: [u8; 7] = [0, 6, 5, 4, 3, 2, 1];

static INVERSES_7: [u8; 7] = [6, 1, 4, 5, 2, 3, 6];

static SUMS_8: [u8; 64] = [
    0, 1, 2, 3, 4, 5, 6, 7, 1, 0, 3, 2, 5, 4, 7, 6, 2, 3, 0, 1, 6, 7, 4, 5, 3, 2, 1, 0, 7, 6, 5, 4,
    4, 5, 6, 7, 0, 1, 2, 3, 5, 4, 7, 6, 1, 0, 3, 2, 6, 7, 4, 5, 2, 3, 0, 1, 7, 6, 5, 4, 3, 2, 1, 0,
];

static PRODUCTS_8: [u8; 64] = [
    0, 0, 0, 0, 0, 0, 0, 0, 0, 1, 2, 3, 4, 5, 6, 7, 0, 2, 4, 6, 3, 1, 7, 5, 0, 3, 6, 5, 7, 4, 1, 2,
    0, 4, 3, 7, 6, 2, 5, 1, 0, 5, 1, 4, 2, 7, 3, 6, 0, 6, 7, 1, 5, 3, 2, 4, 0, 7, 5, 2, 1, 6, 4, 3,
];

static NEGATIVES_8: [u8; 8] = [0, 1, 2, 3, 4, 5, 6, 7];

static INVERSES_8: [u8; 8] = [7, 1, 5, 6, 7, 2, 3, 4];

static SUMS_9: [u8; 81] = [
    0, 1, 2, 3, 4, 5, 6, 7, 8, 1, 2, 0, 4, 5, 3, 7, 8, 6, 2, 0, 1, 5, 3, 4, 8, 6, 7, 3, 4, 5, 6, 7,
    8, 0, 1, 2, 4, 5, 3, 7, 8, 6, 1, 2, 0, 5, 3, 4, 8, 6, 7, 2, 0, 1, 6, 7, 8, 0, 1, 2, 3, 4, 5, 7,
    8, 6, 1, 2, 0, 4, 5, 3, 8, 6, 7, 2, 0, 1, 5, 3, 4,
];

static PRODUCTS_9: [u8; 81] = [
    0, 0, 0, 0, 0, 0, 0, 0, 0, 0, 1, 2, 3, 4, 5, 6, 7, 8, 0, 2, 1, 6, 8, 7, 3, 5, 4, 0, 3, 6, 2, 5,
    8, 1, 4, 7, 0, 4, 8, 5, 6, 1, 7, 2, 3, 0, 5, 7, 8, 1, 3, 4, 6, 2, 0, 6, 3, 1, 7, 4, 2, 8, 5, 0,
    7, 5, 4, 2, 6, 8, 3, 1, 0, 8, 4, 7, 3, 2, 5, 1, 6,
];

static NEGATIVES_9: [u8; 9] = [0, 2, 1, 6, 8, 7, 3, 5, 4];

static INVERSES_9: [u8; 9] = [8, 1, 2, 6, 5, 4, 3, 8, 7];

impl Order {
    /// The order of this many elements, or `None` where there is none among the seven.
    pub fn of_number(n: u64) -> Option<Order>
        ensures { MatchOption result ((o : Order) → number_of o ≢ n) (λ o. number_of o ≡ n) }
    {
        match n {
            2 => Some(Order::Q2),
            3 => Some(Order::Q3),
            4 => Some(Order::Q4),
            5 => Some(Order::Q5),
            7 => Some(Order::Q7),
            8 => Some(Order::Q8),
            9 => Some(Order::Q9),
            _ => None,
        }
    }

    /// The number of elements.
    pub fn number(self) -> u8
        ensures { result ≡ number_of self }
    {
        match self {
            Order::Q2 => 2,
            Order::Q3 => 3,
            Order::Q4 => 4,
            Order::Q5 => 5,
            Order::Q7 => 7,
            Order::Q8 => 8,
            Order::Q9 => 9,
        }
    }

    #[tactic(auto, unfolding(crate::specs::Tables::sums_of))]
    fn sums(self) -> &'static [u8]
        ensures { result.now ≡ sums_of self }
    {
        match self {
            Order::Q2 => &SUMS_2,
            Order::Q3 => &SUMS_3,
            Order::Q4 => &SUMS_4,
            Order::Q5 => &SUMS_5,
            Order::Q7 => &SUMS_7,
            Order::Q8 => &SUMS_8,
            Order::Q9 => &SUMS_9,
        }
    }

    #[tactic(auto, unfolding(crate::specs::Tables::products_of))]
    fn products(self) -> &'static [u8]
        ensures { result.now ≡ products_of self }
    {
        match self {
            Order::Q2 => &PRODUCTS_2,
            Order::Q3 => &PRODUCTS_3,
            Order::Q4 => &PRODUCTS_4,
            Order::Q5 => &PRODUCTS_5,
            Order::Q7 => &PRODUCTS_7,
            Order::Q8 => &PRODUCTS_8,
            Order::Q9 => &PRODUCTS_9,
        }
    }

    #[tactic(auto, unfolding(crate::specs::Tables::negatives_of))]
    fn negatives(self) -> &'static [u8]
        ensures { result.now ≡ negatives_of self }
    {
        match self {
            Order::Q2 => &NEGATIVES_2,
            Order::Q3 => &NEGATIVES_3,
            Order::Q4 => &NEGATIVES_4,
            Order::Q5 => &NEGATIVES_5,
            Order::Q7 => &NEGATIVES_7,
            Order::Q8 => &NEGATIVES_8,
            Order::Q9 => &NEGATIVES_9,
        }
    }

    #[tactic(auto, unfolding(crate::specs::Tables::inverses_of))]
    fn inverses(self) -> &'static [u8]
        ensures { result.now ≡ inverses_of self }
    {
        match self {
            Order::Q2 => &INVERSES_2,
            Order::Q3 => &INVERSES_3,
            Order::Q4 => &INVERSES_4,
            Order::Q5 => &INVERSES_5,
            Order::Q7 => &INVERSES_7,
            Order::Q8 => &INVERSES_8,
            Order::Q9 => &INVERSES_9,
        }
    }

    /// The sum of two elements.
    pub fn add(self, a: u8, b: u8) -> u8
        requires left { a < number_of self }
        requires right { b < number_of self }
        ensures value { result ≡ add_of self a b }
        ensures element { result < number_of self }
    {
        self.sums()[a as usize * self.number() as usize + b as usize]
    }

    /// The product of two elements.
    pub fn mul(self, a: u8, b: u8) -> u8
        requires left { a < number_of self }
        requires right { b < number_of self }
        ensures value { result ≡ mul_of self a b }
        ensures element { result < number_of self }
    {
        self.products()[a as usize * self.number() as usize + b as usize]
    }

    /// The element whose sum with `a` is 0.
    pub fn neg(self, a: u8) -> u8
        requires { a < number_of self }
        ensures value { result ≡ neg_of self a }
        ensures element { result < number_of self }
    {
        self.negatives()[a as usize]
    }

    /// The element whose product with `a` is 1.
    pub fn inv(self, a: u8) -> u8
        requires element { a < number_of self }
        requires not_zero { a ≢ 0 }
        ensures value { result ≡ inv_of self a }
        ensures element { result < number_of self }
    {
        self.inverses()[a as usize]
    }
}
