// The methods by their texts.
ghost use Rattle.std.specs.Prelude.{◌≡◌};
ghost use Rattle.baseline.specs.Methods.{on_holidays, method_or_refusal};

use crate::method::Method;
use load::loads::DayClass;
use refusal::Refusal;
use std::str::FromStr;

const MAX45: Method = Method {
    class: DayClass::Workday,
    n: 5,
    high: 0,
    low: 1,
    reach: 10,
};

const MID610: Method = Method {
    class: DayClass::Workday,
    n: 10,
    high: 2,
    low: 2,
    reach: 20,
};

const MID46: Method = Method {
    class: DayClass::Workday,
    n: 6,
    high: 1,
    low: 1,
    reach: 12,
};

const MID810: Method = Method {
    class: DayClass::Workday,
    n: 10,
    high: 1,
    low: 1,
    reach: 20,
};

impl Method {
    // The same method for holidays.
    fn on_holidays(self) -> Method
        ensures value { result ≡ on_holidays self }
    {
        Method {
            class: DayClass::Holiday,
            n: self.n,
            high: self.high,
            low: self.low,
            reach: self.reach,
        }
    }
}

// The method that a text calls for; any other text is refused.
impl FromStr for Method {
    type Err = Refusal;

    ghost from_str_gives = { λ text r. r ≡ method_or_refusal text };

    fn from_str(text: &str) -> Result<Method, Refusal> {
        // Stays: the text is matched against the seven literals.
        match text {
            "max45" => Ok(MAX45),
            "mid610" => Ok(MID610),
            "mid46" => Ok(MID46),
            "mid810" => Ok(MID810),
            "hmax45" => Ok(MAX45.on_holidays()),
            "hmid610" => Ok(MID610.on_holidays()),
            "hmid46" => Ok(MID46.on_holidays()),
            _ => Err(Refusal::UnknownMethod),
        }
    }
}
