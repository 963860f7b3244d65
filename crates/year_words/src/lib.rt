// The working days of each year as six words of 64 bits, one bit for each day.
#![tactic(auto)]

ghost use Rattle.std.specs.Prelude.{◌≡◌};
ghost use Rattle.year_words.specs.Words.{year_words};

// The words of the years from 2000 on: day i of a year, 0 on 1 January, has bit i % 64 of word i / 64, 1 where it is
// worked. The constant is a reference: an array itself would be laid out anew at each read.
const YEARS: &[[u64; 6]; 200] = &[
    [
        0x7cf9_f3e7_cf9f_3e7c, // 2000
        0x3c78_f9f3_e7cf_9f3e,
        0x9f3e_3cf1_f2e7_cf9f,
        0xcf9f_3e74_f9f3_e7cf,
        0xe7cd_9f3e_7cf9_f3e7,
        0x0000_0e1f_3e7c_f9f3,
    ],
    [
        0x9f3e_7cf9_f3e7_cf9e, // 2001
        0xce9f_3c7c_f9f3_e7cf,
        0xe7cf_9f3e_78f9_73e7,
        0xf3e7_cf9b_3e7c_f9f3,
        0xf9f2_e7cf_9f3e_7cf9,
        0x0000_1327_cf9f_3e7c,
    ],
    [
        0xcf9f_3e7c_f9f3_e7ce, // 2002
        0xe6cf_9f3e_78f9_f3e7,
        0xf3e7_cf9f_3e7c_f1f2,
        0xf9f3_e7cb_9f3e_7cf9,
        0x7cf8_f3e7_cf9f_3e7c,
        0x0000_1933_e7cf_9f3e,
    ],
    [
        0xe7cf_9f3e_7cf9_f3e6, // 2003
        0xf2e7_8f9f_3e7c_f9f3,
        0xf9f3_c7cf_1f2e_7cf9,
        0x7cf9_f3e3_cf9f_3e7c,
        0x3e7c_f9f3_e7cf_9f3e,
        0x0000_1c39_f3e7_cf9f,
    ],
    [
        0xf3e7_cf9f_3e7c_f9f2, // 2004
        0xf9f3_e78f_9f3e_7cf9,
        0x7cf9_b3e7_cf1f_2e7c,
        0x3e7c_f9f3_e7cf_9f3e,
        0x9f3c_7cf9_f3e7_cf9f,
        0x0000_3e7c_f9f3_e7cf,
    ],
    [
        0x7cf9_f3e7_cf9f_3e7c, // 2005
        0x2e7c_f9f3_e78f_9f3e,
        0x9f3e_5cf9_f3e7_cf1f,
        0xcf9f_3e78_f9f3_e7cf,
        0xe7ce_9f3e_7cf9_f3e7,
        0x0000_0f1f_3e7c_f9f3,
    ],
    [
        0x3e7c_f9f3_e7cf_9f3e, // 2006
        0x9e3e_78f9_f3e7_cf9f,
        0xcf9f_1e7c_f1f2_e7cf,
        0xe7cf_9f3a_7cf9_f3e7,
        0xf3e6_cf9f_3e7c_f9f3,
        0x0000_070f_9f3e_7cf9,
    ],
    [
        0x9f3e_7cf9_f3e7_cf9e, // 2007
        0xce9f_3e78_f9f3_e7cf,
        0xe7cf_9f3e_7cf1_f2e7,
        0xf3e7_cf9b_3e7c_f9f3,
        0xf9f2_e7cf_9f3e_7cf9,
        0x0000_1327_cf9f_3e7c,
    ],
    [
        0xcf9f_3e7c_f9f3_e7ce, // 2008
        0xe5cf_9f3e_7cf1_f3e7,
        0xf3e7_8f9f_3e7c_f9e3,
        0xf9f3_e7c7_9f3e_7cf9,
        0x7cf9_f3e7_cf9f_3e7c,
        0x0000_3873_e7cf_9f3e,
    ],
    [
        0xf3e7_cf9f_3e7c_f9f2, // 2009
        0xf8f3_e78f_9f3e_7cf9,
        0x7cf9_d3e7_cf1f_2e7c,
        0x3e7c_f9f3_e7cf_9f3e,
        0x9f3e_7cf9_f3e7_cf9f,
        0x0000_1e3c_f9f3_e7cf,
    ],
    [
        0xf9f3_e7cf_9f3e_7cf8, // 2010
        0x7cf9_f3e7_8f9f_3e7c,
        0x3e7c_d9f3_e7cf_1f2e,
        0x9f3e_7cf9_f3e7_cf9f,
        0xcf9e_3e7c_f9f3_e7cf,
        0x0000_1f3e_7cf9_f3e7,
    ],
    [
        0x7cf9_f3e7_cf9f_3e7c, // 2011
        0x3e78_f9f3_e7cf_9f3e,
        0x9f3e_5cf1_f2e7_cf9f,
        0xcf9f_3e78_f9f3_e7cf,
        0xe7ce_9f3e_7cf9_f3e7,
        0x0000_0f1f_3e7c_f9f3,
    ],
    [
        0x3e7c_f9f3_e7cf_9f3e, // 2012
        0x9d3e_7cf1_f3e7_cf9f,
        0xcf9f_3e7c_f9e3_e5cf,
        0xe7cf_9f36_7cf9_f3e7,
        0xf3e5_cf9f_3e7c_f9f3,
        0x0000_264f_9f3e_7cf9,
    ],
    [
        0xcf9f_3e7c_f9f3_e7ce, // 2013
        0xe6cf_9f3e_78f9_f3e7,
        0xf3e7_cf9f_3e7c_f1f2,
        0xf9f3_e7cb_9f3e_7cf9,
        0x7cf8_f3e7_cf9f_3e7c,
        0x0000_1933_e7cf_9f3e,
    ],
    [
        0xe7cf_9f3e_7cf9_f3e6, // 2014
        0xf2e7_8f9f_3e7c_f9f3,
        0xf9f3_c7cf_1f2e_7cf9,
        0x7cf9_f3e3_cf9f_3e7c,
        0x3e7c_f9f3_e7cf_9f3e,
        0x0000_1c39_f3e7_cf9f,
    ],
    [
        0xf3e7_cf9f_3e7c_f9f2, // 2015
        0xf8f3_e7cf_1f3e_7cf9,
        0x7cf9_d3e7_cf9e_3e5c,
        0x3e7c_f9f3_e7cf_9f3e,
        0x9f3e_7cf9_f3e7_cf9f,
        0x0000_1e3c_f9f3_e7cf,
    ],
    [
        0xf9f3_e7cf_9f3e_7cf8, // 2016
        0x5cf9_f3e7_cf1f_3e7c,
        0x3e7c_b9f3_e7cf_9e3e,
        0x9f3e_7cf1_f3e7_cf9f,
        0xcf9d_3e7c_f9f3_e7cf,
        0x0000_1e3e_7cf9_f3e7,
    ],
    [
        0x3e7c_f9f3_e7cf_9f3e, // 2017
        0x9e3e_78f9_f3e7_cf9f,
        0xcf9f_1e7c_f1f2_e7cf,
        0xe7cf_9f3a_7cf9_f3e7,
        0xf3e6_cf9f_3e7c_f9f3,
        0x0000_070f_9f3e_7cf9,
    ],
    [
        0x9f3e_7cf9_f3e7_cf9e, // 2018
        0xce9f_3e7c_f1f3_e7cf,
        0xe7cf_9f3e_7cf9_e3e5,
        0xf3e7_cf9b_3e7c_f9f3,
        0xf9f2_e7cf_9f3e_7cf9,
        0x0000_1327_cf9f_3e7c,
    ],
    [
        0xcf9f_3e7c_f9f3_e7ce, // 2019
        0xe6cf_1f3e_7cf9_f3e7,
        0xf3e7_cf9e_3e5c_f9f2,
        0xf9f3_e7cb_9f3e_7cf9,
        0x7cf8_f3e7_cf9f_3e7c,
        0x0000_1933_e7cf_9f3e,
    ],
    [
        0xe7cf_9f3e_7cf9_f3e6, // 2020
        0xf1e7_cf1f_3e7c_f9f3,
        0xf9f3_a7cf_9e3e_5cf9,
        0x7cf9_f3e7_cf9f_3e7c,
        0x3e7c_f9f3_e7cf_9f3e,
        0x0000_3c79_f3e7_cf9f,
    ],
    [
        0xf9f3_e7cf_9f3e_7cf8, // 2021
        0x7cf9_f3e7_8f9f_3e7c,
        0x3e7c_d9f3_e7cf_1f2e,
        0x9f3e_7cf9_f3e7_cf9f,
        0xcf9e_3e7c_f9f3_e7cf,
        0x0000_1f3e_7cf9_f3e7,
    ],
    [
        0x7cf9_f3e7_cf9f_3e7c, // 2022
        0x3e7c_f1f3_e7cf_9f3e,
        0x9f3e_5cf9_e3e5_cf9e,
        0xcf9f_3e78_f9f3_e7cf,
        0xe7ce_9f3e_7cf9_f3e7,
        0x0000_0f1f_3e7c_f9f3,
    ],
    [
        0x3e7c_f9f3_e7cf_9f3e, // 2023
        0x9e3e_7cf1_f3e7_cf9f,
        0xcf9f_1e7c_f9e3_e5ce,
        0xe7cf_9f3a_7cf9_f3e7,
        0xf3e6_cf9f_3e7c_f9f3,
        0x0000_070f_9f3e_7cf9,
    ],
    [
        0x9f3e_7cf9_f3e7_cf9e, // 2024
        0xcd9f_3e7c_f1f3_e7cf,
        0xe7cf_9f3e_7cf9_e3e5,
        0xf3e7_cf97_3e7c_f9f3,
        0xf9f1_e7cf_9f3e_7cf9,
        0x0000_3267_cf9f_3e7c,
    ],
    [
        0xe7cf_9f3e_7cf9_f3e6, // 2025
        0xf2e7_8f9f_3e7c_f9f3,
        0xf9f3_c7cf_1f2e_7cf8,
        0x7cf9_f3e3_cf9f_3e7c,
        0x3e7c_f9f3_e7cf_9f3e,
        0x0000_1c39_f3e7_cf9f,
    ],
    [
        0xf3e7_cf9f_3e7c_f9f2, // 2026
        0xf8f3_e7cf_1f3e_7cf9,
        0x7cf9_d3e7_cf9e_3e5c,
        0x3e7c_f9f3_e7cf_9f3e,
        0x9f3e_7cf9_f3e7_cf9f,
        0x0000_1e3c_f9f3_e7cf,
    ],
    [
        0xf9f3_e7cf_9f3e_7cf8, // 2027
        0x5cf9_f3e7_cf1f_3e7c,
        0x3e7c_d9f3_e7cf_9e3e,
        0x9f3e_7cf9_f3e7_cf9f,
        0xcf9e_3e7c_f9f3_e7cf,
        0x0000_1f3e_7cf9_f3e7,
    ],
    [
        0x7cf9_f3e7_cf9f_3e7c, // 2028
        0x3c7c_f1f3_e7cf_9f3e,
        0x9f3e_3cf9_e3e5_cf9d,
        0xcf9f_3e74_f9f3_e7cf,
        0xe7cd_9f3e_7cf9_f3e7,
        0x0000_0e1f_3e7c_f9f3,
    ],
    [
        0x9f3e_7cf9_f3e7_cf9e, // 2029
        0xce9f_3e7c_f1f3_e7cf,
        0xe7cf_9f3e_7cf9_e3e4,
        0xf3e7_cf9b_3e7c_f9f3,
        0xf9f2_e7cf_9f3e_7cf9,
        0x0000_1327_cf9f_3e7c,
    ],
    [
        0xcf9f_3e7c_f9f3_e7ce, // 2030
        0xe6cf_1f3e_7cf9_f3e7,
        0xf3e7_cf9e_3e5c_f9f2,
        0xf9f3_e7cb_9f3e_7cf9,
        0x7cf8_f3e7_cf9f_3e7c,
        0x0000_1933_e7cf_9f3e,
    ],
    [
        0xe7cf_9f3e_7cf9_f3e6, // 2031
        0xf2e7_cf1f_3e7c_f9f3,
        0xf9f3_c7cf_9e3e_5cf8,
        0x7cf9_f3e3_cf9f_3e7c,
        0x3e7c_f9f3_e7cf_9f3e,
        0x0000_1c39_f3e7_cf9f,
    ],
    [
        0xf3e7_cf9f_3e7c_f9f2, // 2032
        0xb9f3_e7cf_9e3e_7cf9,
        0x7cf9_b3e7_cf9f_3c7c,
        0x3e7c_f9f3_e7cf_9f3e,
        0x9f3c_7cf9_f3e7_cf9f,
        0x0000_3e7c_f9f3_e7cf,
    ],
    [
        0x7cf9_f3e7_cf9f_3e7c, // 2033
        0x3e7c_f1f3_e7cf_9f3e,
        0x9f3e_5cf9_e3e5_cf9e,
        0xcf9f_3e78_f9f3_e7cf,
        0xe7ce_9f3e_7cf9_f3e7,
        0x0000_0f1f_3e7c_f9f3,
    ],
    [
        0x3e7c_f9f3_e7cf_9f3e, // 2034
        0x9e3e_7cf1_f3e7_cf9f,
        0xcf9f_1e7c_f9e3_e5ce,
        0xe7cf_9f3a_7cf9_f3e7,
        0xf3e6_cf9f_3e7c_f9f3,
        0x0000_070f_9f3e_7cf9,
    ],
    [
        0x9f3e_7cf9_f3e7_cf9e, // 2035
        0xca9f_3e7c_f9e3_e7cf,
        0xe7cf_9f3e_7cf9_f3c6,
        0xf3e7_cf9b_3e7c_f9f3,
        0xf9f2_e7cf_9f3e_7cf9,
        0x0000_1327_cf9f_3e7c,
    ],
    [
        0xcf9f_3e7c_f9f3_e7ce, // 2036
        0xe5cf_9e3e_7cf9_f3e7,
        0xf3e7_8f9f_3c7c_b9f1,
        0xf9f3_e7c7_9f3e_7cf9,
        0x7cf9_f3e7_cf9f_3e7c,
        0x0000_3873_e7cf_9f3e,
    ],
    [
        0xf3e7_cf9f_3e7c_f9f2, // 2037
        0xf8f3_e7cf_1f3e_7cf9,
        0x7cf9_d3e7_cf9e_3e5c,
        0x3e7c_f9f3_e7cf_9f3e,
        0x9f3e_7cf9_f3e7_cf9f,
        0x0000_1e3c_f9f3_e7cf,
    ],
    [
        0xf9f3_e7cf_9f3e_7cf8, // 2038
        0x7cf1_f3e7_cf9f_3e7c,
        0x3e7c_d9e3_e5cf_9f3e,
        0x9f3e_7cf9_f3e7_cf9f,
        0xcf9e_3e7c_f9f3_e7cf,
        0x0000_1f3e_7cf9_f3e7,
    ],
    [
        0x7cf9_f3e7_cf9f_3e7c, // 2039
        0x3e7c_f9e3_e7cf_9f3e,
        0x9f3e_5cf9_f3c7_cb9e,
        0xcf9f_3e78_f9f3_e7cf,
        0xe7ce_9f3e_7cf9_f3e7,
        0x0000_0f1f_3e7c_f9f3,
    ],
    [
        0x3e7c_f9f3_e7cf_9f3e, // 2040
        0x9d3e_7cf9_e3e7_cf9f,
        0xcf9f_3e7c_f9f3_c7c9,
        0xe7cf_9f36_7cf9_f3e7,
        0xf3e5_cf9f_3e7c_f9f3,
        0x0000_264f_9f3e_7cf9,
    ],
    [
        0xcf9f_3e7c_f9f3_e7ce, // 2041
        0xe6cf_1f3e_7cf9_f3e7,
        0xf3e7_cf9e_3e5c_f9f2,
        0xf9f3_e7cb_9f3e_7cf9,
        0x7cf8_f3e7_cf9f_3e7c,
        0x0000_1933_e7cf_9f3e,
    ],
    [
        0xe7cf_9f3e_7cf9_f3e6, // 2042
        0xf2e7_cf9e_3e7c_f9f3,
        0xf9f3_c7cf_9f3c_7cb8,
        0x7cf9_f3e3_cf9f_3e7c,
        0x3e7c_f9f3_e7cf_9f3e,
        0x0000_1c39_f3e7_cf9f,
    ],
    [
        0xf3e7_cf9f_3e7c_f9f2, // 2043
        0xb8f3_e7cf_9e3e_7cf9,
        0x7cf9_d3e7_cf9f_3c7c,
        0x3e7c_f9f3_e7cf_9f3e,
        0x9f3e_7cf9_f3e7_cf9f,
        0x0000_1e3c_f9f3_e7cf,
    ],
    [
        0xf9f3_e7cf_9f3e_7cf8, // 2044
        0x7cf9_e3e7_cf9f_3e7c,
        0x3e7c_b9f3_c7cb_9f3c,
        0x9f3e_7cf1_f3e7_cf9f,
        0xcf9d_3e7c_f9f3_e7cf,
        0x0000_1e3e_7cf9_f3e7,
    ],
    [
        0x3e7c_f9f3_e7cf_9f3e, // 2045
        0x9e3e_7cf1_f3e7_cf9f,
        0xcf9f_1e7c_f9e3_e5ce,
        0xe7cf_9f3a_7cf9_f3e7,
        0xf3e6_cf9f_3e7c_f9f3,
        0x0000_070f_9f3e_7cf9,
    ],
    [
        0x9f3e_7cf9_f3e7_cf9e, // 2046
        0xca9f_3e7c_f9e3_e7cf,
        0xe7cf_9f3e_7cf9_f3c6,
        0xf3e7_cf9b_3e7c_f9f3,
        0xf9f2_e7cf_9f3e_7cf9,
        0x0000_1327_cf9f_3e7c,
    ],
    [
        0xcf9f_3e7c_f9f3_e7ce, // 2047
        0xe6cf_9e3e_7cf9_f3e7,
        0xf3e7_cf9f_3c7c_b9f2,
        0xf9f3_e7cb_9f3e_7cf9,
        0x7cf8_f3e7_cf9f_3e7c,
        0x0000_1933_e7cf_9f3e,
    ],
    [
        0xe7cf_9f3e_7cf9_f3e6, // 2048
        0xf1e7_cf9e_3e7c_f9f3,
        0xf9f3_a7cf_9f3c_7cb9,
        0x7cf9_f3e7_cf9f_3e7c,
        0x3e7c_f9f3_e7cf_9f3e,
        0x0000_3c79_f3e7_cf9f,
    ],
    [
        0xf9f3_e7cf_9f3e_7cf8, // 2049
        0x7cf9_e3e7_cf9f_3e7c,
        0x3e7c_d9f3_c7cb_9f3e,
        0x9f3e_7cf9_f3e7_cf9f,
        0xcf9e_3e7c_f9f3_e7cf,
        0x0000_1f3e_7cf9_f3e7,
    ],
    [
        0x7cf9_f3e7_cf9f_3e7c, // 2050
        0x3e7c_f9e3_e7cf_9f3e,
        0x9f3e_5cf9_f3c7_cb9e,
        0xcf9f_3e78_f9f3_e7cf,
        0xe7ce_9f3e_7cf9_f3e7,
        0x0000_0f1f_3e7c_f9f3,
    ],
    [
        0x3e7c_f9f3_e7cf_9f3e, // 2051
        0x9e3e_7cf9_e3e7_cf9f,
        0xcf9f_1e7c_f9f3_c7ca,
        0xe7cf_9f3a_7cf9_f3e7,
        0xf3e6_cf9f_3e7c_f9f3,
        0x0000_070f_9f3e_7cf9,
    ],
    [
        0x9f3e_7cf9_f3e7_cf9e, // 2052
        0xcd9e_3e7c_f9f3_e7cf,
        0xe7cf_9f3c_7cb9_f3e5,
        0xf3e7_cf97_3e7c_f9f3,
        0xf9f1_e7cf_9f3e_7cf9,
        0x0000_3267_cf9f_3e7c,
    ],
    [
        0xe7cf_9f3e_7cf9_f3e6, // 2053
        0xf2e7_cf9e_3e7c_f9f3,
        0xf9f3_c7cf_9f3c_7cb8,
        0x7cf9_f3e3_cf9f_3e7c,
        0x3e7c_f9f3_e7cf_9f3e,
        0x0000_1c39_f3e7_cf9f,
    ],
    [
        0xf3e7_cf9f_3e7c_f9f2, // 2054
        0xb8f3_e7cf_9e3e_7cf9,
        0x7cf9_d3e7_cf9f_3c7c,
        0x3e7c_f9f3_e7cf_9f3e,
        0x9f3e_7cf9_f3e7_cf9f,
        0x0000_1e3c_f9f3_e7cf,
    ],
    [
        0xf9f3_e7cf_9f3e_7cf8, // 2055
        0x7cf9_e3e7_cf9f_3e7c,
        0x3e7c_d9f3_c7cb_9f3e,
        0x9f3e_7cf9_f3e7_cf9f,
        0xcf9e_3e7c_f9f3_e7cf,
        0x0000_1f3e_7cf9_f3e7,
    ],
    [
        0x7cf9_f3e7_cf9f_3e7c, // 2056
        0x3c7c_f9f3_c7cf_9f3e,
        0x9f3e_3cf9_f3e7_8f95,
        0xcf9f_3e74_f9f3_e7cf,
        0xe7cd_9f3e_7cf9_f3e7,
        0x0000_0e1f_3e7c_f9f3,
    ],
    [
        0x9f3e_7cf9_f3e7_cf9e, // 2057
        0xce9e_3e7c_f9f3_e7cf,
        0xe7cf_9f3c_7cb9_f3e6,
        0xf3e7_cf9b_3e7c_f9f3,
        0xf9f2_e7cf_9f3e_7cf9,
        0x0000_1327_cf9f_3e7c,
    ],
    [
        0xcf9f_3e7c_f9f3_e7ce, // 2058
        0xe6cf_9e3e_7cf9_f3e7,
        0xf3e7_cf9f_3c7c_b9f2,
        0xf9f3_e7cb_9f3e_7cf9,
        0x7cf8_f3e7_cf9f_3e7c,
        0x0000_1933_e7cf_9f3e,
    ],
    [
        0xe7cf_9f3e_7cf9_f3e6, // 2059
        0x72e7_cf9f_3c7c_f9f3,
        0xf9f3_c7cf_9f3e_78f8,
        0x7cf9_f3e3_cf9f_3e7c,
        0x3e7c_f9f3_e7cf_9f3e,
        0x0000_1c39_f3e7_cf9f,
    ],
    [
        0xf3e7_cf9f_3e7c_f9f2, // 2060
        0xf9f3_c7cf_9f3e_7cf9,
        0x7cf9_b3e7_8f97_3e7c,
        0x3e7c_f9f3_e7cf_9f3e,
        0x9f3c_7cf9_f3e7_cf9f,
        0x0000_3e7c_f9f3_e7cf,
    ],
    [
        0x7cf9_f3e7_cf9f_3e7c, // 2061
        0x3e7c_f9e3_e7cf_9f3e,
        0x9f3e_5cf9_f3c7_cb9e,
        0xcf9f_3e78_f9f3_e7cf,
        0xe7ce_9f3e_7cf9_f3e7,
        0x0000_0f1f_3e7c_f9f3,
    ],
    [
        0x3e7c_f9f3_e7cf_9f3e, // 2062
        0x963e_7cf9_f3c7_cf9f,
        0xcf9f_1e7c_f9f3_e78e,
        0xe7cf_9f3a_7cf9_f3e7,
        0xf3e6_cf9f_3e7c_f9f3,
        0x0000_070f_9f3e_7cf9,
    ],
    [
        0x9f3e_7cf9_f3e7_cf9e, // 2063
        0xce9f_3c7c_f9f3_e7cf,
        0xe7cf_9f3e_78f9_73e6,
        0xf3e7_cf9b_3e7c_f9f3,
        0xf9f2_e7cf_9f3e_7cf9,
        0x0000_1327_cf9f_3e7c,
    ],
    [
        0xcf9f_3e7c_f9f3_e7ce, // 2064
        0xe5cf_9f3c_7cf9_f3e7,
        0xf3e7_8f9f_3e78_f971,
        0xf9f3_e7c7_9f3e_7cf9,
        0x7cf9_f3e7_cf9f_3e7c,
        0x0000_3873_e7cf_9f3e,
    ],
    [
        0xf3e7_cf9f_3e7c_f9f2, // 2065
        0xb8f3_e7cf_9e3e_7cf9,
        0x7cf9_d3e7_cf9f_3c7c,
        0x3e7c_f9f3_e7cf_9f3e,
        0x9f3e_7cf9_f3e7_cf9f,
        0x0000_1e3c_f9f3_e7cf,
    ],
    [
        0xf9f3_e7cf_9f3e_7cf8, // 2066
        0x7cf9_f3c7_cf9f_3e7c,
        0x3e7c_d9f3_e78f_973e,
        0x9f3e_7cf9_f3e7_cf9f,
        0xcf9e_3e7c_f9f3_e7cf,
        0x0000_1f3e_7cf9_f3e7,
    ],
    [
        0x7cf9_f3e7_cf9f_3e7c, // 2067
        0x3e7c_f9f3_c7cf_9f3e,
        0x9f3e_5cf9_f3e7_8f96,
        0xcf9f_3e78_f9f3_e7cf,
        0xe7ce_9f3e_7cf9_f3e7,
        0x0000_0f1f_3e7c_f9f3,
    ],
    [
        0x3e7c_f9f3_e7cf_9f3e, // 2068
        0x9d3c_7cf9_f3e7_cf9f,
        0xcf9f_3e78_f973_e7cd,
        0xe7cf_9f36_7cf9_f3e7,
        0xf3e5_cf9f_3e7c_f9f3,
        0x0000_264f_9f3e_7cf9,
    ],
    [
        0xcf9f_3e7c_f9f3_e7ce, // 2069
        0xe6cf_9e3e_7cf9_f3e7,
        0xf3e7_cf9f_3c7c_b9f2,
        0xf9f3_e7cb_9f3e_7cf9,
        0x7cf8_f3e7_cf9f_3e7c,
        0x0000_1933_e7cf_9f3e,
    ],
    [
        0xe7cf_9f3e_7cf9_f3e6, // 2070
        0x72e7_cf9f_3c7c_f9f3,
        0xf9f3_c7cf_9f3e_78f8,
        0x7cf9_f3e3_cf9f_3e7c,
        0x3e7c_f9f3_e7cf_9f3e,
        0x0000_1c39_f3e7_cf9f,
    ],
    [
        0xf3e7_cf9f_3e7c_f9f2, // 2071
        0xf8f3_c7cf_9f3e_7cf9,
        0x7cf9_d3e7_8f97_3e7c,
        0x3e7c_f9f3_e7cf_9f3e,
        0x9f3e_7cf9_f3e7_cf9f,
        0x0000_1e3c_f9f3_e7cf,
    ],
    [
        0xf9f3_e7cf_9f3e_7cf8, // 2072
        0x7cf9_f3c7_cf9f_3e7c,
        0x3e7c_b9f3_e78f_973c,
        0x9f3e_7cf1_f3e7_cf9f,
        0xcf9d_3e7c_f9f3_e7cf,
        0x0000_1e3e_7cf9_f3e7,
    ],
    [
        0x3e7c_f9f3_e7cf_9f3e, // 2073
        0x963e_7cf9_f3c7_cf9f,
        0xcf9f_1e7c_f9f3_e78e,
        0xe7cf_9f3a_7cf9_f3e7,
        0xf3e6_cf9f_3e7c_f9f3,
        0x0000_070f_9f3e_7cf9,
    ],
    [
        0x9f3e_7cf9_f3e7_cf9e, // 2074
        0xce9f_3c7c_f9f3_e7cf,
        0xe7cf_9f3e_78f9_73e6,
        0xf3e7_cf9b_3e7c_f9f3,
        0xf9f2_e7cf_9f3e_7cf9,
        0x0000_1327_cf9f_3e7c,
    ],
    [
        0xcf9f_3e7c_f9f3_e7ce, // 2075
        0xe6cf_9f3c_7cf9_f3e7,
        0xf3e7_cf9f_3e78_f972,
        0xf9f3_e7cb_9f3e_7cf9,
        0x7cf8_f3e7_cf9f_3e7c,
        0x0000_1933_e7cf_9f3e,
    ],
    [
        0xe7cf_9f3e_7cf9_f3e6, // 2076
        0xf1e7_8f9f_3e7c_f9f3,
        0xf9f3_a7cf_1f2e_7cf9,
        0x7cf9_f3e7_cf9f_3e7c,
        0x3e7c_f9f3_e7cf_9f3e,
        0x0000_3c79_f3e7_cf9f,
    ],
    [
        0xf9f3_e7cf_9f3e_7cf8, // 2077
        0x7cf9_f3c7_cf9f_3e7c,
        0x3e7c_d9f3_e78f_973e,
        0x9f3e_7cf9_f3e7_cf9f,
        0xcf9e_3e7c_f9f3_e7cf,
        0x0000_1f3e_7cf9_f3e7,
    ],
    [
        0x7cf9_f3e7_cf9f_3e7c, // 2078
        0x3e7c_f9f3_c7cf_9f3e,
        0x9f3e_5cf9_f3e7_8f96,
        0xcf9f_3e78_f9f3_e7cf,
        0xe7ce_9f3e_7cf9_f3e7,
        0x0000_0f1f_3e7c_f9f3,
    ],
    [
        0x3e7c_f9f3_e7cf_9f3e, // 2079
        0x9e3c_7cf9_f3e7_cf9f,
        0xcf9f_1e78_f973_e7ce,
        0xe7cf_9f3a_7cf9_f3e7,
        0xf3e6_cf9f_3e7c_f9f3,
        0x0000_070f_9f3e_7cf9,
    ],
    [
        0x9f3e_7cf9_f3e7_cf9e, // 2080
        0xcd9f_3e78_f9f3_e7cf,
        0xe7cf_9f3e_7cf1_f2e5,
        0xf3e7_cf97_3e7c_f9f3,
        0xf9f1_e7cf_9f3e_7cf9,
        0x0000_3267_cf9f_3e7c,
    ],
    [
        0xe7cf_9f3e_7cf9_f3e6, // 2081
        0x72e7_cf9f_3c7c_f9f3,
        0xf9f3_c7cf_9f3e_78f8,
        0x7cf9_f3e3_cf9f_3e7c,
        0x3e7c_f9f3_e7cf_9f3e,
        0x0000_1c39_f3e7_cf9f,
    ],
    [
        0xf3e7_cf9f_3e7c_f9f2, // 2082
        0xf8f3_c7cf_9f3e_7cf9,
        0x7cf9_d3e7_8f97_3e7c,
        0x3e7c_f9f3_e7cf_9f3e,
        0x9f3e_7cf9_f3e7_cf9f,
        0x0000_1e3c_f9f3_e7cf,
    ],
    [
        0xf9f3_e7cf_9f3e_7cf8, // 2083
        0x7cf9_f3e7_8f9f_3e7c,
        0x3e7c_d9f3_e7cf_1f2e,
        0x9f3e_7cf9_f3e7_cf9f,
        0xcf9e_3e7c_f9f3_e7cf,
        0x0000_1f3e_7cf9_f3e7,
    ],
    [
        0x7cf9_f3e7_cf9f_3e7c, // 2084
        0x2c7c_f9f3_e78f_9f3e,
        0x9f3e_3cf9_f3e7_cf1d,
        0xcf9f_3e74_f9f3_e7cf,
        0xe7cd_9f3e_7cf9_f3e7,
        0x0000_0e1f_3e7c_f9f3,
    ],
    [
        0x9f3e_7cf9_f3e7_cf9e, // 2085
        0xce9f_3c7c_f9f3_e7cf,
        0xe7cf_9f3e_78f9_73e6,
        0xf3e7_cf9b_3e7c_f9f3,
        0xf9f2_e7cf_9f3e_7cf9,
        0x0000_1327_cf9f_3e7c,
    ],
    [
        0xcf9f_3e7c_f9f3_e7ce, // 2086
        0xe6cf_9f3e_78f9_f3e7,
        0xf3e7_cf9f_3e7c_f1f2,
        0xf9f3_e7cb_9f3e_7cf9,
        0x7cf8_f3e7_cf9f_3e7c,
        0x0000_1933_e7cf_9f3e,
    ],
    [
        0xe7cf_9f3e_7cf9_f3e6, // 2087
        0xf2e7_8f9f_3e7c_f9f3,
        0xf9f3_c7cf_1f2e_7cf8,
        0x7cf9_f3e3_cf9f_3e7c,
        0x3e7c_f9f3_e7cf_9f3e,
        0x0000_1c39_f3e7_cf9f,
    ],
    [
        0xf3e7_cf9f_3e7c_f9f2, // 2088
        0xf9f3_e78f_9f3e_7cf9,
        0x7cf9_b3e7_cf1f_2e7c,
        0x3e7c_f9f3_e7cf_9f3e,
        0x9f3c_7cf9_f3e7_cf9f,
        0x0000_3e7c_f9f3_e7cf,
    ],
    [
        0x7cf9_f3e7_cf9f_3e7c, // 2089
        0x3e7c_f9f3_c7cf_9f3e,
        0x9f3e_5cf9_f3e7_8f96,
        0xcf9f_3e78_f9f3_e7cf,
        0xe7ce_9f3e_7cf9_f3e7,
        0x0000_0f1f_3e7c_f9f3,
    ],
    [
        0x3e7c_f9f3_e7cf_9f3e, // 2090
        0x9e3e_78f9_f3e7_cf9f,
        0xcf9f_1e7c_f1f2_e7ce,
        0xe7cf_9f3a_7cf9_f3e7,
        0xf3e6_cf9f_3e7c_f9f3,
        0x0000_070f_9f3e_7cf9,
    ],
    [
        0x9f3e_7cf9_f3e7_cf9e, // 2091
        0xce9f_3e78_f9f3_e7cf,
        0xe7cf_9f3e_7cf1_f2e6,
        0xf3e7_cf9b_3e7c_f9f3,
        0xf9f2_e7cf_9f3e_7cf9,
        0x0000_1327_cf9f_3e7c,
    ],
    [
        0xcf9f_3e7c_f9f3_e7ce, // 2092
        0xe5cf_9f3e_78f9_f3e7,
        0xf3e7_8f9f_3e7c_f1f0,
        0xf9f3_e7c7_9f3e_7cf9,
        0x7cf9_f3e7_cf9f_3e7c,
        0x0000_3873_e7cf_9f3e,
    ],
    [
        0xf3e7_cf9f_3e7c_f9f2, // 2093
        0xf8f3_e78f_9f3e_7cf9,
        0x7cf9_d3e7_cf1f_2e7c,
        0x3e7c_f9f3_e7cf_9f3e,
        0x9f3e_7cf9_f3e7_cf9f,
        0x0000_1e3c_f9f3_e7cf,
    ],
    [
        0xf9f3_e7cf_9f3e_7cf8, // 2094
        0x7cf9_f3e7_8f9f_3e7c,
        0x3e7c_d9f3_e7cf_1f2e,
        0x9f3e_7cf9_f3e7_cf9f,
        0xcf9e_3e7c_f9f3_e7cf,
        0x0000_1f3e_7cf9_f3e7,
    ],
    [
        0x7cf9_f3e7_cf9f_3e7c, // 2095
        0x3e78_f9f3_e7cf_9f3e,
        0x9f3e_5cf1_f2e7_cf9e,
        0xcf9f_3e78_f9f3_e7cf,
        0xe7ce_9f3e_7cf9_f3e7,
        0x0000_0f1f_3e7c_f9f3,
    ],
    [
        0x3e7c_f9f3_e7cf_9f3e, // 2096
        0x9d3e_78f9_f3e7_cf9f,
        0xcf9f_3e7c_f1f2_e7cd,
        0xe7cf_9f36_7cf9_f3e7,
        0xf3e5_cf9f_3e7c_f9f3,
        0x0000_264f_9f3e_7cf9,
    ],
    [
        0xcf9f_3e7c_f9f3_e7ce, // 2097
        0xe6cf_9f3e_78f9_f3e7,
        0xf3e7_cf9f_3e7c_f1f2,
        0xf9f3_e7cb_9f3e_7cf9,
        0x7cf8_f3e7_cf9f_3e7c,
        0x0000_1933_e7cf_9f3e,
    ],
    [
        0xe7cf_9f3e_7cf9_f3e6, // 2098
        0xf2e7_8f9f_3e7c_f9f3,
        0xf9f3_c7cf_1f2e_7cf8,
        0x7cf9_f3e3_cf9f_3e7c,
        0x3e7c_f9f3_e7cf_9f3e,
        0x0000_1c39_f3e7_cf9f,
    ],
    [
        0xf3e7_cf9f_3e7c_f9f2, // 2099
        0xf8f3_e78f_9f3e_7cf9,
        0x7cf9_d3e7_cf1f_2e7c,
        0x3e7c_f9f3_e7cf_9f3e,
        0x9f3e_7cf9_f3e7_cf9f,
        0x0000_1e3c_f9f3_e7cf,
    ],
    [
        0xf9f3_e7cf_9f3e_7cf8, // 2100
        0x5cf9_f3e7_cf1f_3e7c,
        0x3e7c_d9f3_e7cf_9e3e,
        0x9f3e_7cf9_f3e7_cf9f,
        0xcf9e_3e7c_f9f3_e7cf,
        0x0000_1f3e_7cf9_f3e7,
    ],
    [
        0x7cf9_f3e7_cf9f_3e7c, // 2101
        0x3e7c_f1f3_e7cf_9f3e,
        0x9f3e_5cf9_e3e5_cf9e,
        0xcf9f_3e78_f9f3_e7cf,
        0xe7ce_9f3e_7cf9_f3e7,
        0x0000_0f1f_3e7c_f9f3,
    ],
    [
        0x3e7c_f9f3_e7cf_9f3e, // 2102
        0x9e3e_7cf1_f3e7_cf9f,
        0xcf9f_1e7c_f9e3_e5ce,
        0xe7cf_9f3a_7cf9_f3e7,
        0xf3e6_cf9f_3e7c_f9f3,
        0x0000_070f_9f3e_7cf9,
    ],
    [
        0x9f3e_7cf9_f3e7_cf9e, // 2103
        0xca9f_3e7c_f9e3_e7cf,
        0xe7cf_9f3e_7cf9_f3c6,
        0xf3e7_cf9b_3e7c_f9f3,
        0xf9f2_e7cf_9f3e_7cf9,
        0x0000_1327_cf9f_3e7c,
    ],
    [
        0xcf9f_3e7c_f9f3_e7ce, // 2104
        0xe5cf_9e3e_7cf9_f3e7,
        0xf3e7_8f9f_3c7c_b9f1,
        0xf9f3_e7c7_9f3e_7cf9,
        0x7cf9_f3e7_cf9f_3e7c,
        0x0000_3873_e7cf_9f3e,
    ],
    [
        0xf3e7_cf9f_3e7c_f9f2, // 2105
        0xf8f3_e7cf_1f3e_7cf9,
        0x7cf9_d3e7_cf9e_3e5c,
        0x3e7c_f9f3_e7cf_9f3e,
        0x9f3e_7cf9_f3e7_cf9f,
        0x0000_1e3c_f9f3_e7cf,
    ],
    [
        0xf9f3_e7cf_9f3e_7cf8, // 2106
        0x7cf9_e3e7_cf9f_3e7c,
        0x3e7c_d9f3_c7cb_9f3e,
        0x9f3e_7cf9_f3e7_cf9f,
        0xcf9e_3e7c_f9f3_e7cf,
        0x0000_1f3e_7cf9_f3e7,
    ],
    [
        0x7cf9_f3e7_cf9f_3e7c, // 2107
        0x3e7c_f9e3_e7cf_9f3e,
        0x9f3e_5cf9_f3c7_cb9e,
        0xcf9f_3e78_f9f3_e7cf,
        0xe7ce_9f3e_7cf9_f3e7,
        0x0000_0f1f_3e7c_f9f3,
    ],
    [
        0x3e7c_f9f3_e7cf_9f3e, // 2108
        0x9d3e_7cf9_e3e7_cf9f,
        0xcf9f_3e7c_f9f3_c7c9,
        0xe7cf_9f36_7cf9_f3e7,
        0xf3e5_cf9f_3e7c_f9f3,
        0x0000_264f_9f3e_7cf9,
    ],
    [
        0xcf9f_3e7c_f9f3_e7ce, // 2109
        0xe6cf_1f3e_7cf9_f3e7,
        0xf3e7_cf9e_3e5c_f9f2,
        0xf9f3_e7cb_9f3e_7cf9,
        0x7cf8_f3e7_cf9f_3e7c,
        0x0000_1933_e7cf_9f3e,
    ],
    [
        0xe7cf_9f3e_7cf9_f3e6, // 2110
        0xf2e7_cf9e_3e7c_f9f3,
        0xf9f3_c7cf_9f3c_7cb8,
        0x7cf9_f3e3_cf9f_3e7c,
        0x3e7c_f9f3_e7cf_9f3e,
        0x0000_1c39_f3e7_cf9f,
    ],
    [
        0xf3e7_cf9f_3e7c_f9f2, // 2111
        0xb8f3_e7cf_9e3e_7cf9,
        0x7cf9_d3e7_cf9f_3c7c,
        0x3e7c_f9f3_e7cf_9f3e,
        0x9f3e_7cf9_f3e7_cf9f,
        0x0000_1e3c_f9f3_e7cf,
    ],
    [
        0xf9f3_e7cf_9f3e_7cf8, // 2112
        0x7cf9_e3e7_cf9f_3e7c,
        0x3e7c_b9f3_c7cb_9f3c,
        0x9f3e_7cf1_f3e7_cf9f,
        0xcf9d_3e7c_f9f3_e7cf,
        0x0000_1e3e_7cf9_f3e7,
    ],
    [
        0x3e7c_f9f3_e7cf_9f3e, // 2113
        0x9e3e_7cf9_e3e7_cf9f,
        0xcf9f_1e7c_f9f3_c7ca,
        0xe7cf_9f3a_7cf9_f3e7,
        0xf3e6_cf9f_3e7c_f9f3,
        0x0000_070f_9f3e_7cf9,
    ],
    [
        0x9f3e_7cf9_f3e7_cf9e, // 2114
        0xce9e_3e7c_f9f3_e7cf,
        0xe7cf_9f3c_7cb9_f3e6,
        0xf3e7_cf9b_3e7c_f9f3,
        0xf9f2_e7cf_9f3e_7cf9,
        0x0000_1327_cf9f_3e7c,
    ],
    [
        0xcf9f_3e7c_f9f3_e7ce, // 2115
        0xe6cf_9e3e_7cf9_f3e7,
        0xf3e7_cf9f_3c7c_b9f2,
        0xf9f3_e7cb_9f3e_7cf9,
        0x7cf8_f3e7_cf9f_3e7c,
        0x0000_1933_e7cf_9f3e,
    ],
    [
        0xe7cf_9f3e_7cf9_f3e6, // 2116
        0x71e7_cf9f_3c7c_f9f3,
        0xf9f3_a7cf_9f3e_78f9,
        0x7cf9_f3e7_cf9f_3e7c,
        0x3e7c_f9f3_e7cf_9f3e,
        0x0000_3c79_f3e7_cf9f,
    ],
    [
        0xf9f3_e7cf_9f3e_7cf8, // 2117
        0x7cf9_e3e7_cf9f_3e7c,
        0x3e7c_d9f3_c7cb_9f3e,
        0x9f3e_7cf9_f3e7_cf9f,
        0xcf9e_3e7c_f9f3_e7cf,
        0x0000_1f3e_7cf9_f3e7,
    ],
    [
        0x7cf9_f3e7_cf9f_3e7c, // 2118
        0x3e7c_f9e3_e7cf_9f3e,
        0x9f3e_5cf9_f3c7_cb9e,
        0xcf9f_3e78_f9f3_e7cf,
        0xe7ce_9f3e_7cf9_f3e7,
        0x0000_0f1f_3e7c_f9f3,
    ],
    [
        0x3e7c_f9f3_e7cf_9f3e, // 2119
        0x963e_7cf9_f3c7_cf9f,
        0xcf9f_1e7c_f9f3_e78e,
        0xe7cf_9f3a_7cf9_f3e7,
        0xf3e6_cf9f_3e7c_f9f3,
        0x0000_070f_9f3e_7cf9,
    ],
    [
        0x9f3e_7cf9_f3e7_cf9e, // 2120
        0xcd9f_3c7c_f9f3_e7cf,
        0xe7cf_9f3e_78f9_73e5,
        0xf3e7_cf97_3e7c_f9f3,
        0xf9f1_e7cf_9f3e_7cf9,
        0x0000_3267_cf9f_3e7c,
    ],
    [
        0xe7cf_9f3e_7cf9_f3e6, // 2121
        0xf2e7_cf9e_3e7c_f9f3,
        0xf9f3_c7cf_9f3c_7cb8,
        0x7cf9_f3e3_cf9f_3e7c,
        0x3e7c_f9f3_e7cf_9f3e,
        0x0000_1c39_f3e7_cf9f,
    ],
    [
        0xf3e7_cf9f_3e7c_f9f2, // 2122
        0xb8f3_e7cf_9e3e_7cf9,
        0x7cf9_d3e7_cf9f_3c7c,
        0x3e7c_f9f3_e7cf_9f3e,
        0x9f3e_7cf9_f3e7_cf9f,
        0x0000_1e3c_f9f3_e7cf,
    ],
    [
        0xf9f3_e7cf_9f3e_7cf8, // 2123
        0x7cf9_f3c7_cf9f_3e7c,
        0x3e7c_d9f3_e78f_973e,
        0x9f3e_7cf9_f3e7_cf9f,
        0xcf9e_3e7c_f9f3_e7cf,
        0x0000_1f3e_7cf9_f3e7,
    ],
    [
        0x7cf9_f3e7_cf9f_3e7c, // 2124
        0x3c7c_f9f3_c7cf_9f3e,
        0x9f3e_3cf9_f3e7_8f95,
        0xcf9f_3e74_f9f3_e7cf,
        0xe7cd_9f3e_7cf9_f3e7,
        0x0000_0e1f_3e7c_f9f3,
    ],
    [
        0x9f3e_7cf9_f3e7_cf9e, // 2125
        0xce9e_3e7c_f9f3_e7cf,
        0xe7cf_9f3c_7cb9_f3e6,
        0xf3e7_cf9b_3e7c_f9f3,
        0xf9f2_e7cf_9f3e_7cf9,
        0x0000_1327_cf9f_3e7c,
    ],
    [
        0xcf9f_3e7c_f9f3_e7ce, // 2126
        0xe6cf_9e3e_7cf9_f3e7,
        0xf3e7_cf9f_3c7c_b9f2,
        0xf9f3_e7cb_9f3e_7cf9,
        0x7cf8_f3e7_cf9f_3e7c,
        0x0000_1933_e7cf_9f3e,
    ],
    [
        0xe7cf_9f3e_7cf9_f3e6, // 2127
        0x72e7_cf9f_3c7c_f9f3,
        0xf9f3_c7cf_9f3e_78f8,
        0x7cf9_f3e3_cf9f_3e7c,
        0x3e7c_f9f3_e7cf_9f3e,
        0x0000_1c39_f3e7_cf9f,
    ],
    [
        0xf3e7_cf9f_3e7c_f9f2, // 2128
        0xf9f3_c7cf_9f3e_7cf9,
        0x7cf9_b3e7_8f97_3e7c,
        0x3e7c_f9f3_e7cf_9f3e,
        0x9f3c_7cf9_f3e7_cf9f,
        0x0000_3e7c_f9f3_e7cf,
    ],
    [
        0x7cf9_f3e7_cf9f_3e7c, // 2129
        0x3e7c_f9e3_e7cf_9f3e,
        0x9f3e_5cf9_f3c7_cb9e,
        0xcf9f_3e78_f9f3_e7cf,
        0xe7ce_9f3e_7cf9_f3e7,
        0x0000_0f1f_3e7c_f9f3,
    ],
    [
        0x3e7c_f9f3_e7cf_9f3e, // 2130
        0x963e_7cf9_f3c7_cf9f,
        0xcf9f_1e7c_f9f3_e78e,
        0xe7cf_9f3a_7cf9_f3e7,
        0xf3e6_cf9f_3e7c_f9f3,
        0x0000_070f_9f3e_7cf9,
    ],
    [
        0x9f3e_7cf9_f3e7_cf9e, // 2131
        0xce9f_3c7c_f9f3_e7cf,
        0xe7cf_9f3e_78f9_73e6,
        0xf3e7_cf9b_3e7c_f9f3,
        0xf9f2_e7cf_9f3e_7cf9,
        0x0000_1327_cf9f_3e7c,
    ],
    [
        0xcf9f_3e7c_f9f3_e7ce, // 2132
        0xe5cf_9f3c_7cf9_f3e7,
        0xf3e7_8f9f_3e78_f971,
        0xf9f3_e7c7_9f3e_7cf9,
        0x7cf9_f3e7_cf9f_3e7c,
        0x0000_3873_e7cf_9f3e,
    ],
    [
        0xf3e7_cf9f_3e7c_f9f2, // 2133
        0xf8f3_c7cf_9f3e_7cf9,
        0x7cf9_d3e7_8f97_3e7c,
        0x3e7c_f9f3_e7cf_9f3e,
        0x9f3e_7cf9_f3e7_cf9f,
        0x0000_1e3c_f9f3_e7cf,
    ],
    [
        0xf9f3_e7cf_9f3e_7cf8, // 2134
        0x7cf9_f3c7_cf9f_3e7c,
        0x3e7c_d9f3_e78f_973e,
        0x9f3e_7cf9_f3e7_cf9f,
        0xcf9e_3e7c_f9f3_e7cf,
        0x0000_1f3e_7cf9_f3e7,
    ],
    [
        0x7cf9_f3e7_cf9f_3e7c, // 2135
        0x3e7c_f9f3_c7cf_9f3e,
        0x9f3e_5cf9_f3e7_8f96,
        0xcf9f_3e78_f9f3_e7cf,
        0xe7ce_9f3e_7cf9_f3e7,
        0x0000_0f1f_3e7c_f9f3,
    ],
    [
        0x3e7c_f9f3_e7cf_9f3e, // 2136
        0x9d3c_7cf9_f3e7_cf9f,
        0xcf9f_3e78_f973_e7cd,
        0xe7cf_9f36_7cf9_f3e7,
        0xf3e5_cf9f_3e7c_f9f3,
        0x0000_264f_9f3e_7cf9,
    ],
    [
        0xcf9f_3e7c_f9f3_e7ce, // 2137
        0xe6cf_9f3c_7cf9_f3e7,
        0xf3e7_cf9f_3e78_f972,
        0xf9f3_e7cb_9f3e_7cf9,
        0x7cf8_f3e7_cf9f_3e7c,
        0x0000_1933_e7cf_9f3e,
    ],
    [
        0xe7cf_9f3e_7cf9_f3e6, // 2138
        0x72e7_cf9f_3c7c_f9f3,
        0xf9f3_c7cf_9f3e_78f8,
        0x7cf9_f3e3_cf9f_3e7c,
        0x3e7c_f9f3_e7cf_9f3e,
        0x0000_1c39_f3e7_cf9f,
    ],
    [
        0xf3e7_cf9f_3e7c_f9f2, // 2139
        0xf8f3_c7cf_9f3e_7cf9,
        0x7cf9_d3e7_8f97_3e7c,
        0x3e7c_f9f3_e7cf_9f3e,
        0x9f3e_7cf9_f3e7_cf9f,
        0x0000_1e3c_f9f3_e7cf,
    ],
    [
        0xf9f3_e7cf_9f3e_7cf8, // 2140
        0x7cf9_f3e7_8f9f_3e7c,
        0x3e7c_b9f3_e7cf_1f2c,
        0x9f3e_7cf1_f3e7_cf9f,
        0xcf9d_3e7c_f9f3_e7cf,
        0x0000_1e3e_7cf9_f3e7,
    ],
    [
        0x3e7c_f9f3_e7cf_9f3e, // 2141
        0x963e_7cf9_f3c7_cf9f,
        0xcf9f_1e7c_f9f3_e78e,
        0xe7cf_9f3a_7cf9_f3e7,
        0xf3e6_cf9f_3e7c_f9f3,
        0x0000_070f_9f3e_7cf9,
    ],
    [
        0x9f3e_7cf9_f3e7_cf9e, // 2142
        0xce9f_3c7c_f9f3_e7cf,
        0xe7cf_9f3e_78f9_73e6,
        0xf3e7_cf9b_3e7c_f9f3,
        0xf9f2_e7cf_9f3e_7cf9,
        0x0000_1327_cf9f_3e7c,
    ],
    [
        0xcf9f_3e7c_f9f3_e7ce, // 2143
        0xe6cf_9f3e_78f9_f3e7,
        0xf3e7_cf9f_3e7c_f1f2,
        0xf9f3_e7cb_9f3e_7cf9,
        0x7cf8_f3e7_cf9f_3e7c,
        0x0000_1933_e7cf_9f3e,
    ],
    [
        0xe7cf_9f3e_7cf9_f3e6, // 2144
        0xf1e7_8f9f_3e7c_f9f3,
        0xf9f3_a7cf_1f2e_7cf9,
        0x7cf9_f3e7_cf9f_3e7c,
        0x3e7c_f9f3_e7cf_9f3e,
        0x0000_3c79_f3e7_cf9f,
    ],
    [
        0xf9f3_e7cf_9f3e_7cf8, // 2145
        0x7cf9_f3c7_cf9f_3e7c,
        0x3e7c_d9f3_e78f_973e,
        0x9f3e_7cf9_f3e7_cf9f,
        0xcf9e_3e7c_f9f3_e7cf,
        0x0000_1f3e_7cf9_f3e7,
    ],
    [
        0x7cf9_f3e7_cf9f_3e7c, // 2146
        0x3e7c_f9f3_c7cf_9f3e,
        0x9f3e_5cf9_f3e7_8f96,
        0xcf9f_3e78_f9f3_e7cf,
        0xe7ce_9f3e_7cf9_f3e7,
        0x0000_0f1f_3e7c_f9f3,
    ],
    [
        0x3e7c_f9f3_e7cf_9f3e, // 2147
        0x9e3e_78f9_f3e7_cf9f,
        0xcf9f_1e7c_f1f2_e7ce,
        0xe7cf_9f3a_7cf9_f3e7,
        0xf3e6_cf9f_3e7c_f9f3,
        0x0000_070f_9f3e_7cf9,
    ],
    [
        0x9f3e_7cf9_f3e7_cf9e, // 2148
        0xcd9f_3e78_f9f3_e7cf,
        0xe7cf_9f3e_7cf1_f2e5,
        0xf3e7_cf97_3e7c_f9f3,
        0xf9f1_e7cf_9f3e_7cf9,
        0x0000_3267_cf9f_3e7c,
    ],
    [
        0xe7cf_9f3e_7cf9_f3e6, // 2149
        0x72e7_cf9f_3c7c_f9f3,
        0xf9f3_c7cf_9f3e_78f8,
        0x7cf9_f3e3_cf9f_3e7c,
        0x3e7c_f9f3_e7cf_9f3e,
        0x0000_1c39_f3e7_cf9f,
    ],
    [
        0xf3e7_cf9f_3e7c_f9f2, // 2150
        0xf8f3_e78f_9f3e_7cf9,
        0x7cf9_d3e7_cf1f_2e7c,
        0x3e7c_f9f3_e7cf_9f3e,
        0x9f3e_7cf9_f3e7_cf9f,
        0x0000_1e3c_f9f3_e7cf,
    ],
    [
        0xf9f3_e7cf_9f3e_7cf8, // 2151
        0x7cf9_f3e7_8f9f_3e7c,
        0x3e7c_d9f3_e7cf_1f2e,
        0x9f3e_7cf9_f3e7_cf9f,
        0xcf9e_3e7c_f9f3_e7cf,
        0x0000_1f3e_7cf9_f3e7,
    ],
    [
        0x7cf9_f3e7_cf9f_3e7c, // 2152
        0x3c78_f9f3_e7cf_9f3e,
        0x9f3e_3cf1_f2e7_cf9d,
        0xcf9f_3e74_f9f3_e7cf,
        0xe7cd_9f3e_7cf9_f3e7,
        0x0000_0e1f_3e7c_f9f3,
    ],
    [
        0x9f3e_7cf9_f3e7_cf9e, // 2153
        0xce9f_3c7c_f9f3_e7cf,
        0xe7cf_9f3e_78f9_73e6,
        0xf3e7_cf9b_3e7c_f9f3,
        0xf9f2_e7cf_9f3e_7cf9,
        0x0000_1327_cf9f_3e7c,
    ],
    [
        0xcf9f_3e7c_f9f3_e7ce, // 2154
        0xe6cf_9f3e_78f9_f3e7,
        0xf3e7_cf9f_3e7c_f1f2,
        0xf9f3_e7cb_9f3e_7cf9,
        0x7cf8_f3e7_cf9f_3e7c,
        0x0000_1933_e7cf_9f3e,
    ],
    [
        0xe7cf_9f3e_7cf9_f3e6, // 2155
        0xf2e7_8f9f_3e7c_f9f3,
        0xf9f3_c7cf_1f2e_7cf8,
        0x7cf9_f3e3_cf9f_3e7c,
        0x3e7c_f9f3_e7cf_9f3e,
        0x0000_1c39_f3e7_cf9f,
    ],
    [
        0xf3e7_cf9f_3e7c_f9f2, // 2156
        0xf9f3_e78f_9f3e_7cf9,
        0x7cf9_b3e7_cf1f_2e7c,
        0x3e7c_f9f3_e7cf_9f3e,
        0x9f3c_7cf9_f3e7_cf9f,
        0x0000_3e7c_f9f3_e7cf,
    ],
    [
        0x7cf9_f3e7_cf9f_3e7c, // 2157
        0x2e7c_f9f3_e78f_9f3e,
        0x9f3e_5cf9_f3e7_cf1e,
        0xcf9f_3e78_f9f3_e7cf,
        0xe7ce_9f3e_7cf9_f3e7,
        0x0000_0f1f_3e7c_f9f3,
    ],
    [
        0x3e7c_f9f3_e7cf_9f3e, // 2158
        0x9e3e_78f9_f3e7_cf9f,
        0xcf9f_1e7c_f1f2_e7ce,
        0xe7cf_9f3a_7cf9_f3e7,
        0xf3e6_cf9f_3e7c_f9f3,
        0x0000_070f_9f3e_7cf9,
    ],
    [
        0x9f3e_7cf9_f3e7_cf9e, // 2159
        0xce9f_3e78_f9f3_e7cf,
        0xe7cf_9f3e_7cf1_f2e6,
        0xf3e7_cf9b_3e7c_f9f3,
        0xf9f2_e7cf_9f3e_7cf9,
        0x0000_1327_cf9f_3e7c,
    ],
    [
        0xcf9f_3e7c_f9f3_e7ce, // 2160
        0xe5cf_9f3e_7cf1_f3e7,
        0xf3e7_8f9f_3e7c_f9e1,
        0xf9f3_e7c7_9f3e_7cf9,
        0x7cf9_f3e7_cf9f_3e7c,
        0x0000_3873_e7cf_9f3e,
    ],
    [
        0xf3e7_cf9f_3e7c_f9f2, // 2161
        0xf8f3_e78f_9f3e_7cf9,
        0x7cf9_d3e7_cf1f_2e7c,
        0x3e7c_f9f3_e7cf_9f3e,
        0x9f3e_7cf9_f3e7_cf9f,
        0x0000_1e3c_f9f3_e7cf,
    ],
    [
        0xf9f3_e7cf_9f3e_7cf8, // 2162
        0x7cf9_f3e7_8f9f_3e7c,
        0x3e7c_d9f3_e7cf_1f2e,
        0x9f3e_7cf9_f3e7_cf9f,
        0xcf9e_3e7c_f9f3_e7cf,
        0x0000_1f3e_7cf9_f3e7,
    ],
    [
        0x7cf9_f3e7_cf9f_3e7c, // 2163
        0x3e78_f9f3_e7cf_9f3e,
        0x9f3e_5cf1_f2e7_cf9e,
        0xcf9f_3e78_f9f3_e7cf,
        0xe7ce_9f3e_7cf9_f3e7,
        0x0000_0f1f_3e7c_f9f3,
    ],
    [
        0x3e7c_f9f3_e7cf_9f3e, // 2164
        0x9d3e_7cf1_f3e7_cf9f,
        0xcf9f_3e7c_f9e3_e5cd,
        0xe7cf_9f36_7cf9_f3e7,
        0xf3e5_cf9f_3e7c_f9f3,
        0x0000_264f_9f3e_7cf9,
    ],
    [
        0xcf9f_3e7c_f9f3_e7ce, // 2165
        0xe6cf_9f3e_78f9_f3e7,
        0xf3e7_cf9f_3e7c_f1f2,
        0xf9f3_e7cb_9f3e_7cf9,
        0x7cf8_f3e7_cf9f_3e7c,
        0x0000_1933_e7cf_9f3e,
    ],
    [
        0xe7cf_9f3e_7cf9_f3e6, // 2166
        0xf2e7_8f9f_3e7c_f9f3,
        0xf9f3_c7cf_1f2e_7cf8,
        0x7cf9_f3e3_cf9f_3e7c,
        0x3e7c_f9f3_e7cf_9f3e,
        0x0000_1c39_f3e7_cf9f,
    ],
    [
        0xf3e7_cf9f_3e7c_f9f2, // 2167
        0xf8f3_e7cf_1f3e_7cf9,
        0x7cf9_d3e7_cf9e_3e5c,
        0x3e7c_f9f3_e7cf_9f3e,
        0x9f3e_7cf9_f3e7_cf9f,
        0x0000_1e3c_f9f3_e7cf,
    ],
    [
        0xf9f3_e7cf_9f3e_7cf8, // 2168
        0x5cf9_f3e7_cf1f_3e7c,
        0x3e7c_b9f3_e7cf_9e3c,
        0x9f3e_7cf1_f3e7_cf9f,
        0xcf9d_3e7c_f9f3_e7cf,
        0x0000_1e3e_7cf9_f3e7,
    ],
    [
        0x3e7c_f9f3_e7cf_9f3e, // 2169
        0x9e3e_78f9_f3e7_cf9f,
        0xcf9f_1e7c_f1f2_e7ce,
        0xe7cf_9f3a_7cf9_f3e7,
        0xf3e6_cf9f_3e7c_f9f3,
        0x0000_070f_9f3e_7cf9,
    ],
    [
        0x9f3e_7cf9_f3e7_cf9e, // 2170
        0xce9f_3e7c_f1f3_e7cf,
        0xe7cf_9f3e_7cf9_e3e4,
        0xf3e7_cf9b_3e7c_f9f3,
        0xf9f2_e7cf_9f3e_7cf9,
        0x0000_1327_cf9f_3e7c,
    ],
    [
        0xcf9f_3e7c_f9f3_e7ce, // 2171
        0xe6cf_1f3e_7cf9_f3e7,
        0xf3e7_cf9e_3e5c_f9f2,
        0xf9f3_e7cb_9f3e_7cf9,
        0x7cf8_f3e7_cf9f_3e7c,
        0x0000_1933_e7cf_9f3e,
    ],
    [
        0xe7cf_9f3e_7cf9_f3e6, // 2172
        0xf1e7_cf1f_3e7c_f9f3,
        0xf9f3_a7cf_9e3e_5cf9,
        0x7cf9_f3e7_cf9f_3e7c,
        0x3e7c_f9f3_e7cf_9f3e,
        0x0000_3c79_f3e7_cf9f,
    ],
    [
        0xf9f3_e7cf_9f3e_7cf8, // 2173
        0x7cf9_f3e7_8f9f_3e7c,
        0x3e7c_d9f3_e7cf_1f2e,
        0x9f3e_7cf9_f3e7_cf9f,
        0xcf9e_3e7c_f9f3_e7cf,
        0x0000_1f3e_7cf9_f3e7,
    ],
    [
        0x7cf9_f3e7_cf9f_3e7c, // 2174
        0x3e7c_f1f3_e7cf_9f3e,
        0x9f3e_5cf9_e3e5_cf9e,
        0xcf9f_3e78_f9f3_e7cf,
        0xe7ce_9f3e_7cf9_f3e7,
        0x0000_0f1f_3e7c_f9f3,
    ],
    [
        0x3e7c_f9f3_e7cf_9f3e, // 2175
        0x9e3e_7cf1_f3e7_cf9f,
        0xcf9f_1e7c_f9e3_e5ce,
        0xe7cf_9f3a_7cf9_f3e7,
        0xf3e6_cf9f_3e7c_f9f3,
        0x0000_070f_9f3e_7cf9,
    ],
    [
        0x9f3e_7cf9_f3e7_cf9e, // 2176
        0xcd9f_3e7c_f1f3_e7cf,
        0xe7cf_9f3e_7cf9_e3e5,
        0xf3e7_cf97_3e7c_f9f3,
        0xf9f1_e7cf_9f3e_7cf9,
        0x0000_3267_cf9f_3e7c,
    ],
    [
        0xe7cf_9f3e_7cf9_f3e6, // 2177
        0xf2e7_8f9f_3e7c_f9f3,
        0xf9f3_c7cf_1f2e_7cf8,
        0x7cf9_f3e3_cf9f_3e7c,
        0x3e7c_f9f3_e7cf_9f3e,
        0x0000_1c39_f3e7_cf9f,
    ],
    [
        0xf3e7_cf9f_3e7c_f9f2, // 2178
        0xf8f3_e7cf_1f3e_7cf9,
        0x7cf9_d3e7_cf9e_3e5c,
        0x3e7c_f9f3_e7cf_9f3e,
        0x9f3e_7cf9_f3e7_cf9f,
        0x0000_1e3c_f9f3_e7cf,
    ],
    [
        0xf9f3_e7cf_9f3e_7cf8, // 2179
        0x5cf9_f3e7_cf1f_3e7c,
        0x3e7c_d9f3_e7cf_9e3e,
        0x9f3e_7cf9_f3e7_cf9f,
        0xcf9e_3e7c_f9f3_e7cf,
        0x0000_1f3e_7cf9_f3e7,
    ],
    [
        0x7cf9_f3e7_cf9f_3e7c, // 2180
        0x3c7c_f1f3_e7cf_9f3e,
        0x9f3e_3cf9_e3e5_cf9d,
        0xcf9f_3e74_f9f3_e7cf,
        0xe7cd_9f3e_7cf9_f3e7,
        0x0000_0e1f_3e7c_f9f3,
    ],
    [
        0x9f3e_7cf9_f3e7_cf9e, // 2181
        0xce9f_3e7c_f1f3_e7cf,
        0xe7cf_9f3e_7cf9_e3e4,
        0xf3e7_cf9b_3e7c_f9f3,
        0xf9f2_e7cf_9f3e_7cf9,
        0x0000_1327_cf9f_3e7c,
    ],
    [
        0xcf9f_3e7c_f9f3_e7ce, // 2182
        0xe6cf_1f3e_7cf9_f3e7,
        0xf3e7_cf9e_3e5c_f9f2,
        0xf9f3_e7cb_9f3e_7cf9,
        0x7cf8_f3e7_cf9f_3e7c,
        0x0000_1933_e7cf_9f3e,
    ],
    [
        0xe7cf_9f3e_7cf9_f3e6, // 2183
        0xf2e7_cf1f_3e7c_f9f3,
        0xf9f3_c7cf_9e3e_5cf8,
        0x7cf9_f3e3_cf9f_3e7c,
        0x3e7c_f9f3_e7cf_9f3e,
        0x0000_1c39_f3e7_cf9f,
    ],
    [
        0xf3e7_cf9f_3e7c_f9f2, // 2184
        0xb9f3_e7cf_9e3e_7cf9,
        0x7cf9_b3e7_cf9f_3c7c,
        0x3e7c_f9f3_e7cf_9f3e,
        0x9f3c_7cf9_f3e7_cf9f,
        0x0000_3e7c_f9f3_e7cf,
    ],
    [
        0x7cf9_f3e7_cf9f_3e7c, // 2185
        0x3e7c_f1f3_e7cf_9f3e,
        0x9f3e_5cf9_e3e5_cf9e,
        0xcf9f_3e78_f9f3_e7cf,
        0xe7ce_9f3e_7cf9_f3e7,
        0x0000_0f1f_3e7c_f9f3,
    ],
    [
        0x3e7c_f9f3_e7cf_9f3e, // 2186
        0x9e3e_7cf1_f3e7_cf9f,
        0xcf9f_1e7c_f9e3_e5ce,
        0xe7cf_9f3a_7cf9_f3e7,
        0xf3e6_cf9f_3e7c_f9f3,
        0x0000_070f_9f3e_7cf9,
    ],
    [
        0x9f3e_7cf9_f3e7_cf9e, // 2187
        0xca9f_3e7c_f9e3_e7cf,
        0xe7cf_9f3e_7cf9_f3c6,
        0xf3e7_cf9b_3e7c_f9f3,
        0xf9f2_e7cf_9f3e_7cf9,
        0x0000_1327_cf9f_3e7c,
    ],
    [
        0xcf9f_3e7c_f9f3_e7ce, // 2188
        0xe5cf_9e3e_7cf9_f3e7,
        0xf3e7_8f9f_3c7c_b9f1,
        0xf9f3_e7c7_9f3e_7cf9,
        0x7cf9_f3e7_cf9f_3e7c,
        0x0000_3873_e7cf_9f3e,
    ],
    [
        0xf3e7_cf9f_3e7c_f9f2, // 2189
        0xf8f3_e7cf_1f3e_7cf9,
        0x7cf9_d3e7_cf9e_3e5c,
        0x3e7c_f9f3_e7cf_9f3e,
        0x9f3e_7cf9_f3e7_cf9f,
        0x0000_1e3c_f9f3_e7cf,
    ],
    [
        0xf9f3_e7cf_9f3e_7cf8, // 2190
        0x7cf1_f3e7_cf9f_3e7c,
        0x3e7c_d9e3_e5cf_9f3e,
        0x9f3e_7cf9_f3e7_cf9f,
        0xcf9e_3e7c_f9f3_e7cf,
        0x0000_1f3e_7cf9_f3e7,
    ],
    [
        0x7cf9_f3e7_cf9f_3e7c, // 2191
        0x3e7c_f9e3_e7cf_9f3e,
        0x9f3e_5cf9_f3c7_cb9e,
        0xcf9f_3e78_f9f3_e7cf,
        0xe7ce_9f3e_7cf9_f3e7,
        0x0000_0f1f_3e7c_f9f3,
    ],
    [
        0x3e7c_f9f3_e7cf_9f3e, // 2192
        0x9d3e_7cf9_e3e7_cf9f,
        0xcf9f_3e7c_f9f3_c7c9,
        0xe7cf_9f36_7cf9_f3e7,
        0xf3e5_cf9f_3e7c_f9f3,
        0x0000_264f_9f3e_7cf9,
    ],
    [
        0xcf9f_3e7c_f9f3_e7ce, // 2193
        0xe6cf_1f3e_7cf9_f3e7,
        0xf3e7_cf9e_3e5c_f9f2,
        0xf9f3_e7cb_9f3e_7cf9,
        0x7cf8_f3e7_cf9f_3e7c,
        0x0000_1933_e7cf_9f3e,
    ],
    [
        0xe7cf_9f3e_7cf9_f3e6, // 2194
        0xf2e7_cf9e_3e7c_f9f3,
        0xf9f3_c7cf_9f3c_7cb8,
        0x7cf9_f3e3_cf9f_3e7c,
        0x3e7c_f9f3_e7cf_9f3e,
        0x0000_1c39_f3e7_cf9f,
    ],
    [
        0xf3e7_cf9f_3e7c_f9f2, // 2195
        0xb8f3_e7cf_9e3e_7cf9,
        0x7cf9_d3e7_cf9f_3c7c,
        0x3e7c_f9f3_e7cf_9f3e,
        0x9f3e_7cf9_f3e7_cf9f,
        0x0000_1e3c_f9f3_e7cf,
    ],
    [
        0xf9f3_e7cf_9f3e_7cf8, // 2196
        0x7cf9_e3e7_cf9f_3e7c,
        0x3e7c_b9f3_c7cb_9f3c,
        0x9f3e_7cf1_f3e7_cf9f,
        0xcf9d_3e7c_f9f3_e7cf,
        0x0000_1e3e_7cf9_f3e7,
    ],
    [
        0x3e7c_f9f3_e7cf_9f3e, // 2197
        0x9e3e_7cf1_f3e7_cf9f,
        0xcf9f_1e7c_f9e3_e5ce,
        0xe7cf_9f3a_7cf9_f3e7,
        0xf3e6_cf9f_3e7c_f9f3,
        0x0000_070f_9f3e_7cf9,
    ],
    [
        0x9f3e_7cf9_f3e7_cf9e, // 2198
        0xca9f_3e7c_f9e3_e7cf,
        0xe7cf_9f3e_7cf9_f3c6,
        0xf3e7_cf9b_3e7c_f9f3,
        0xf9f2_e7cf_9f3e_7cf9,
        0x0000_1327_cf9f_3e7c,
    ],
    [
        0xcf9f_3e7c_f9f3_e7ce, // 2199
        0xe6cf_9e3e_7cf9_f3e7,
        0xf3e7_cf9f_3c7c_b9f2,
        0xf9f3_e7cb_9f3e_7cf9,
        0x7cf8_f3e7_cf9f_3e7c,
        0x0000_1933_e7cf_9f3e,
    ],
];

// The words of year 2000 + k; no day past the calendar is worked.
pub fn words(k: u32) -> [u64; 6]
    ensures { result ≡ year_words k }
{
    if k >= 200 {
        return [0; 6];
    }
    YEARS[k as usize]
}
